//! The encodings of values, by their codes.

ghost use Rattle.std.specs.Prelude.{◌≡◌};
ghost use Rattle.cdf_model.specs.Encodings.{encoding_of};

/// How the values of a file are encoded: the code that the file has, and whether the least byte of a value stands first.
#[derive(Clone, Copy, Debug, PartialEq, Eq)]
pub struct Encoding {
    pub code: u32,
    pub little: bool,
}

impl Encoding {
    /// The encoding of a code; none where the code is not one of those that are read.
    pub fn of_code(code: i32) -> Option<Encoding>
        ensures { result ≡ encoding_of code }
    {
        let Ok(code) = u32::try_from(code) else {
            return None;
        };
        match code {
            1 | 2 | 5 | 7 | 9 | 11 | 12 | 18 => Some(Encoding {
                code,
                little: false,
            }),
            4 | 6 | 13 | 16 | 17 => Some(Encoding { code, little: true }),
            _ => None,
        }
    }
}
