// Where the fields of a trailer and of a record stand.
ghost use Rattle.std.specs.Prelude.{◌+◌, ◌≤◌, ◌≡◌, length};
ghost use Rattle.node.specs.Layout.{trailer_of, record_at, records_of, record_among, type_byte_among};

use fields::Field;

// The last 16 bytes.
#[derive(Clone, Copy)]
pub struct Trailer {
    pub first: u8,
    pub second: u8,
    pub version: u8,
    pub zero: u8,
    pub streams: u16,
    pub property: u16,
    pub distance: u32,
    pub rest: u32,
}

// A record: 16 bytes.
#[derive(Clone, Copy, Default)]
pub struct Record {
    pub op: u8,
    pub ty: u8,
    pub a: u16,
    pub b: u16,
    pub c: u16,
    pub k: i32,
    pub rest: u32,
}

pub fn trailer_of(file: &[u8]) -> Trailer
    requires { 16 ≤ length file.now }
    ensures { result ≡ trailer_of file.now }
{
    let at = file.len() - 16;
    Trailer {
        first: file[at],
        second: file[at + 1],
        version: file[at + 2],
        zero: file[at + 3],
        streams: u16::read_at(file, at + 4),
        property: u16::read_at(file, at + 6),
        distance: u32::read_at(file, at + 8),
        rest: u32::read_at(file, at + 12),
    }
}

pub fn record_at(file: &[u8], at: usize) -> Record
    requires { at + 16 ≤ length file.now }
    ensures { result ≡ record_at file.now at }
{
    Record {
        op: file[at],
        ty: file[at + 1],
        a: u16::read_at(file, at + 2),
        b: u16::read_at(file, at + 4),
        c: u16::read_at(file, at + 6),
        k: i32::read_at(file, at + 8),
        rest: u32::read_at(file, at + 12),
    }
}

// How many whole records stand before the trailer.
pub fn records_of(file: &[u8]) -> usize
    ensures { result ≡ records_of file.now }
{
    let size = file.len();
    if size < 16 {
        return 0;
    }
    let trailer = trailer_of(file);
    let n = trailer.streams as usize;
    if size < 16 + 16 * n {
        return 0;
    }
    n
}

// Record i of n that stand before the trailer, or the empty record where there is none or they do not fit the file. Whoever reads
// many records reads the trailer's n once. File and n stay two parameters: published calls take them with any n, and a clause over a struct of
// both says more in each place.
pub fn record_among(file: &[u8], n: usize, i: usize) -> Record
    ensures { result ≡ record_among file.now n i }
{
    let size = file.len();
    // The records and the trailer, n + 1 times 16 bytes, fit the file.
    if (i < n) & (n < size / 16) {
        let start = size - (16 + 16 * n);
        record_at(file, start + 16 * i)
    } else {
        Record::default()
    }
}

// The type byte of record i of n.
pub fn type_byte_among(file: &[u8], n: usize, i: usize) -> u8
    ensures { result ≡ type_byte_among file.now n i }
{
    record_among(file, n, i).ty
}
