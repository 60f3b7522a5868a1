//! The types of values, with their codes, names and sizes.

ghost use Rattle.std.specs.Prelude.{◌≡◌};
ghost use Rattle.cdf_model.specs.Arguments.{type_in};
ghost use Rattle.cdf_model.specs.Types.{code_of, name_of, size_of, type_of};

/// The type of the elements of a value, with the code that stands for it in a file.
#[derive(Clone, Copy, Debug, PartialEq, Eq)]
pub enum DataType {
    Int1 = 1,
    Int2 = 2,
    Int4 = 4,
    Int8 = 8,
    UInt1 = 11,
    UInt2 = 12,
    UInt4 = 14,
    Real4 = 21,
    Real8 = 22,
    Epoch = 31,
    Epoch16 = 32,
    TimeTt2000 = 33,
    Byte = 41,
    Float = 44,
    Double = 45,
    Char = 51,
    UChar = 52,
}

/// All types.
const DATA_TYPES: [DataType; 17] = [
    DataType::Int1,
    DataType::Int2,
    DataType::Int4,
    DataType::Int8,
    DataType::UInt1,
    DataType::UInt2,
    DataType::UInt4,
    DataType::Real4,
    DataType::Real8,
    DataType::Epoch,
    DataType::Epoch16,
    DataType::TimeTt2000,
    DataType::Byte,
    DataType::Float,
    DataType::Double,
    DataType::Char,
    DataType::UChar,
];

impl DataType {
    /// The number of bytes of an element.
    pub fn size(&self) -> u32
        ensures { result ≡ size_of self.now }
    {
        match self {
            DataType::Int1 | DataType::UInt1 | DataType::Byte => 1,
            DataType::Char | DataType::UChar => 1,
            DataType::Int2 | DataType::UInt2 => 2,
            DataType::Int4 | DataType::UInt4 => 4,
            DataType::Real4 | DataType::Float => 4,
            DataType::Int8 | DataType::Real8 | DataType::Double => 8,
            DataType::Epoch | DataType::TimeTt2000 => 8,
            DataType::Epoch16 => 16,
        }
    }

    /// The name of the type in scripts and replies.
    pub fn name(&self) -> &'static str
        ensures { result.now ≡ name_of self.now }
    {
        match self {
            DataType::Int1 => "INT1",
            DataType::Int2 => "INT2",
            DataType::Int4 => "INT4",
            DataType::Int8 => "INT8",
            DataType::UInt1 => "UINT1",
            DataType::UInt2 => "UINT2",
            DataType::UInt4 => "UINT4",
            DataType::Real4 => "REAL4",
            DataType::Real8 => "REAL8",
            DataType::Epoch => "EPOCH",
            DataType::Epoch16 => "EPOCH16",
            DataType::TimeTt2000 => "TIME_TT2000",
            DataType::Byte => "BYTE",
            DataType::Float => "FLOAT",
            DataType::Double => "DOUBLE",
            DataType::Char => "CHAR",
            DataType::UChar => "UCHAR",
        }
    }

    /// The type of a name; none where no type has the name.
    pub fn of_name(name: &[u8]) -> Option<DataType>
        ensures { result ≡ type_in name.now }
    {
        DATA_TYPES
            .iter()
            .find(|t| t.name().as_bytes() == name)
            .copied()
    }

    /// The code of the type, as a file stores it.
    pub fn code(self) -> u32
        ensures { result ≡ code_of self }
    {
        match self {
            DataType::Int1 => 1,
            DataType::Int2 => 2,
            DataType::Int4 => 4,
            DataType::Int8 => 8,
            DataType::UInt1 => 11,
            DataType::UInt2 => 12,
            DataType::UInt4 => 14,
            DataType::Real4 => 21,
            DataType::Real8 => 22,
            DataType::Epoch => 31,
            DataType::Epoch16 => 32,
            DataType::TimeTt2000 => 33,
            DataType::Byte => 41,
            DataType::Float => 44,
            DataType::Double => 45,
            DataType::Char => 51,
            DataType::UChar => 52,
        }
    }

    /// The type of a code; none where no type has the code.
    pub fn of_code(code: i32) -> Option<DataType>
        ensures { result ≡ type_of code }
    {
        let Ok(code) = u32::try_from(code) else {
            return None;
        };
        match code {
            1 => Some(DataType::Int1),
            2 => Some(DataType::Int2),
            4 => Some(DataType::Int4),
            8 => Some(DataType::Int8),
            11 => Some(DataType::UInt1),
            12 => Some(DataType::UInt2),
            14 => Some(DataType::UInt4),
            21 => Some(DataType::Real4),
            22 => Some(DataType::Real8),
            31 => Some(DataType::Epoch),
            32 => Some(DataType::Epoch16),
            33 => Some(DataType::TimeTt2000),
            41 => Some(DataType::Byte),
            44 => Some(DataType::Float),
            45 => Some(DataType::Double),
            51 => Some(DataType::Char),
            52 => Some(DataType::UChar),
            _ => None,
        }
    }
}
