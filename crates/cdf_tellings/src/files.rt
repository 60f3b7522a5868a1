//! What a file is that was rejected, as far as its bytes tell.

ghost use Rattle.std.specs.Prelude.{◌≡◌};

use cdf_check::Broken;
use cdf_store::Store;

/// How bytes of a CDF file are packed.
#[derive(Clone, Copy, Debug, PartialEq, Eq)]
pub enum Packing {
    Runs,
    Huffman,
    AdaptiveHuffman,
    Gzip,
    Other,
}

/// What a file is that is not read.
#[derive(Clone, Copy, Debug, PartialEq, Eq)]
pub enum Nature {
    Hdf5,
    Hdf4,
    NetCdf,
    Fits,
    Gzip,
    Zip,
    /// A CDF file of version 2.
    VersionTwo,
    /// A CDF file that is compressed as a whole.
    Whole(Packing),
    /// A CDF file with a variable that is compressed.
    Variable(Packing),
    /// A CDF file with sparse arrays.
    Sparse,
}

/// How many bytes are looked at in one place.
const SIGHT: usize = 24;

/// The bytes of the attached file from a place on. Where there are none, they are 0.
fn bytes_at<S: Store>(store: &mut S, place: u64) -> [u8; SIGHT]
    ensures disk { S.disk store.new ≡ S.disk store.old }
    ensures write { S.write_faults store.new ≡ S.write_faults store.old }
{
    let mut bytes = [0; SIGHT];
    if store.size() > 0 && store.read_at(place, &mut bytes).is_err() {
        return [0; SIGHT];
    }
    bytes
}

/// A number of 4 bytes, the highest one first.
fn number_at(bytes: &[u8; SIGHT], place: usize) -> u32 {
    match bytes.get(place..) {
        Some([a, b, c, d, ..]) => u32::from_be_bytes([*a, *b, *c, *d]),
        _ => 0,
    }
}

/// A number of 8 bytes, the highest one first.
fn place_in(bytes: &[u8; SIGHT], place: usize) -> u64 {
    let high = number_at(bytes, place) as u64;
    high << 32 | number_at(bytes, place.saturating_add(4)) as u64
}

/// The type of the record that bytes begin with.
fn record_type(record: &[u8; SIGHT]) -> u32 {
    number_at(record, 8)
}

/// The packing of a Compressed Parameters Record, where bytes begin with such a record.
fn packing_of(record: &[u8; SIGHT]) -> Packing {
    match (record_type(record), number_at(record, 12)) {
        (11, 1) => Packing::Runs,
        (11, 2) => Packing::Huffman,
        (11, 3) => Packing::AdaptiveHuffman,
        (11, 5) => Packing::Gzip,
        _ => Packing::Other,
    }
}

/// The packing of a file that is compressed as a whole: the record at 8 tells where its parameters stand.
fn packing_of_whole<S: Store>(store: &mut S) -> Packing
    ensures disk { S.disk store.new ≡ S.disk store.old }
    ensures write { S.write_faults store.new ≡ S.write_faults store.old }
{
    let record = bytes_at(store, 8);
    let parameters = bytes_at(store, place_in(&record, 12));
    packing_of(&parameters)
}

/// Another format, by the bytes that a file begins with.
fn other_format(front: &[u8]) -> Option<Nature> {
    match front {
        [0x89, b'H', b'D', b'F', 0x0d, 0x0a, 0x1a, 0x0a, ..] => Some(Nature::Hdf5),
        [0x0e, 0x03, 0x13, 0x01, ..] => Some(Nature::Hdf4),
        [b'C', b'D', b'F', 1 | 2 | 5, ..] => Some(Nature::NetCdf),
        [b'S', b'I', b'M', b'P', b'L', b'E', b' ', b' ', b'=', ..] => Some(Nature::Fits),
        [0x1f, 0x8b, ..] => Some(Nature::Gzip),
        [b'P', b'K', 3, 4, ..] => Some(Nature::Zip),
        _ => None,
    }
}

/// What the bytes say that a file begins with.
fn nature_of_front<S: Store>(store: &mut S) -> Option<Nature>
    ensures disk { S.disk store.new ≡ S.disk store.old }
    ensures write { S.write_faults store.new ≡ S.write_faults store.old }
{
    let front = bytes_at(store, 0);
    match (number_at(&front, 0), number_at(&front, 4)) {
        (0xcdf2_6002, _) | (0x0000_ffff, 0x0000_ffff) => Some(Nature::VersionTwo),
        (0xcdf3_0001, 0xcccc_0001) => Some(Nature::Whole(packing_of_whole(store))),
        _ => other_format(&front),
    }
}

/// What parameters say by which a variable is packed in a way that is not read.
fn nature_of_parameters(record: &[u8; SIGHT]) -> Option<Nature> {
    match packing_of(record) {
        Packing::Other => None,
        packing => Some(Nature::Variable(packing)),
    }
}

/// What a variable says that is not compressed and has parameters all the same.
fn nature_of_variable<S: Store>(store: &mut S, vdr: u64) -> Option<Nature>
    ensures disk { S.disk store.new ≡ S.disk store.old }
    ensures write { S.write_faults store.new ≡ S.write_faults store.old }
{
    let link = bytes_at(store, vdr.saturating_add(72));
    let parameters = bytes_at(store, place_in(&link, 0));
    match record_type(&parameters) {
        12 => Some(Nature::Sparse),
        _ => None,
    }
}

/// What the attached file is, where it breaks this rule and its bytes tell more than the rule.
pub fn look<S: Store>(store: &mut S, broken: Broken) -> Option<Nature>
    ensures disk { S.disk store.new ≡ S.disk store.old }
    ensures write { S.write_faults store.new ≡ S.write_faults store.old }
{
    match (broken.phase, broken.rule) {
        (0 | 1 | 2, _) => nature_of_front(store),
        (7, 10) => nature_of_variable(store, broken.at),
        (7, 12) => nature_of_parameters(&bytes_at(store, broken.at)),
        _ => None,
    }
}

/// A packing as it is told behind `compressed`.
fn words_of_packing(packing: Packing) -> &'static str {
    match packing {
        Packing::Runs => " by run lengths",
        Packing::Huffman => " by Huffman",
        Packing::AdaptiveHuffman => " by adaptive Huffman",
        Packing::Gzip => " by gzip",
        Packing::Other => "",
    }
}

impl Nature {
    /// What the file is in words, and how its bytes are packed.
    pub fn words(self) -> (&'static str, &'static str) {
        match self {
            Nature::Hdf5 => ("it is an HDF5 file, as netCDF of version 4 is too", ""),
            Nature::Hdf4 => ("it is an HDF4 file", ""),
            Nature::NetCdf => ("it is a netCDF file, which is another format", ""),
            Nature::Fits => ("it is a FITS file", ""),
            Nature::Gzip => ("it is packed by gzip, and has to be unpacked first", ""),
            Nature::Zip => ("it is a zip archive, and has to be unpacked first", ""),
            Nature::VersionTwo => (
                "it is a CDF file of version 2, and version 3 alone is read",
                "",
            ),
            Nature::Whole(packing) => (
                "it is a CDF file that is compressed as a whole",
                words_of_packing(packing),
            ),
            Nature::Variable(packing) => ("a variable is compressed", words_of_packing(packing)),
            Nature::Sparse => ("a variable has sparse arrays", ""),
        }
    }
}
