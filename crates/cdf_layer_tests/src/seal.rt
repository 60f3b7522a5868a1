//! The digests of texts that RFC 1321 gives.

use cdf_area::{Area, MemArea};
use cdf_seal::digest_of;
use std::test::Fail;

// RFC 1321, A.5: a text, and the digits of its digest.
const VECTORS: [(&str, &str); 7] = [
    ("", "d41d8cd98f00b204e9800998ecf8427e"),
    ("a", "0cc175b9c0f1b6a831c399e269772661"),
    ("abc", "900150983cd24fb0d6963f7d28e17f72"),
    ("message digest", "f96b697d7cb7938d525a2f31aaf161d0"),
    (
        "abcdefghijklmnopqrstuvwxyz",
        "c3fcd3d76192e4007dfb496cca67e13b",
    ),
    (
        "ABCDEFGHIJKLMNOPQRSTUVWXYZabcdefghijklmnopqrstuvwxyz0123456789",
        "d174ab98d277d9f5a5611c2c9f419d9f",
    ),
    (
        "12345678901234567890123456789012345678901234567890123456789012345678901234567890",
        "57edf4a22be3c955ac49da2e2107b67a",
    ),
];

#[test]
fn digests_of_known_texts(rt: HostRuntime) -> Result<(), Fail> {
    let alloc = rt.alloc();
    for (text, digits) in VECTORS {
        let mut area = MemArea::new(alloc, text.as_bytes().to_vec(alloc)?, 1000);
        let upto = area.size();
        let Ok(digest) = digest_of(&mut area, upto) else {
            assert!(rt; false, "no digest of {text}");
            return Ok(());
        };
        let mut found = String::new(alloc);
        for byte in digest {
            write!(found, "{byte:02x}")?;
        }
        assert_eq!(rt; found.as_str(), digits, "of {text}");
    }
    Ok(())
}
