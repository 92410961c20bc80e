// The items of a vector file (oracle/FORMAT.md), read in place: nothing is copied.
ghost use Rattle.std.specs.Prelude.{◌≡◌, ◌+◌, ◌-◌, ◌<◌, ◌≤◌, length, take, drop, slice_index, slice_set};
ghost use Rattle.std.specs.Iterator.{at_most};
ghost use Rattle.words.specs.Le.{le_at};
ghost use Rattle.vectors.specs.Items.{contents_of, counted_kind, named, parts_after};
ghost use Rattle.vectors.specs.Numbers.{BeginsKind, IsKindOf, file_number};

use crate::calls::{FILES, File, Unknown};

// A part of the vector file; a serializer's `Span` is one of a payload.
#[derive(Clone, Copy)]
pub struct Part {
    pub at: usize,
    pub len: usize,
}

// What an item does: it sets a file to its body, or to the part of the vector file that its body names, or it is a call of the function of a number.
#[derive(Clone, Copy)]
pub enum Kind {
    Sets(File),
    Names(File),
    Call(u8),
}

// By an item's first byte.
impl TryFrom<u8> for Kind {
    type Error = Unknown;

    ghost try_from_gives = { BeginsKind };

    fn try_from(byte: u8) -> Result<Kind, Unknown> {
        match byte {
            0..=15 => File::try_from(byte).map(Kind::Sets),
            16..=31 => File::try_from(byte - 16).map(Kind::Names),
            32..=254 => Ok(Kind::Call(byte - 32)),
            255 => Err(Unknown(byte)),
        }
    }
}

// One item: its kind where it has one, its body, and where the next item starts.
#[derive(Clone, Copy)]
pub struct Item {
    pub kind: Option<Kind>,
    pub body: Part,
    pub next: usize,
}

// The items of a vector file from a place on, one behind the other.
#[derive(Clone, Copy)]
pub struct Items<'a> {
    pub bytes: &'a [u8],
    pub at: usize,
}

impl<'a> Items<'a> {
    // All of them.
    pub fn new(bytes: &'a [u8]) -> Items<'a>
        ensures { (result.bytes.now ≡ bytes.now) × (result.at ≡ 0) }
    {
        Items { bytes, at: 0 }
    }
}

impl<'a> Iterator for Items<'a> {
    type Item = Item;

    ghost remaining = { λ s. at_most (length s.bytes.now - s.at) };

    fn next(&mut self) -> Option<Item> {
        if self.bytes.len() <= self.at {
            return None;
        }
        let item = item_at(self.bytes, self.at);
        self.at = item.next;
        Some(item)
    }
}

// Where in the vector file each file is.
#[derive(Clone, Copy)]
pub struct Files {
    pub parts: [Part; FILES],
}

// The item at a place; it ends behind that place.
pub fn item_at(bytes: &[u8], at: usize) -> Item
    ensures moves { at < length bytes.now → at < result.next }
    ensures begins { at + 5 + le_at bytes.now (at + 1) 4 ≤ length bytes.now → IsKindOf (slice_index bytes.now at) result.kind }
{
    let size = bytes.len();
    if size <= at {
        return cut(size);
    }
    let left = size - at;
    if left < 5 {
        return cut(size);
    }
    let len = words::u32_at(bytes, at + 1) as usize;
    if left - 5 < len {
        return cut(size);
    }
    let body = Part { at: at + 5, len };
    Item {
        kind: kind_at(bytes, at),
        body,
        next: at + 5 + len,
    }
}

// The kind of the item at a place, by its first byte alone.
fn kind_at(bytes: &[u8], at: usize) -> Option<Kind>
    ensures { IsKindOf (slice_index bytes.now at) result }
{
    Kind::try_from(words::byte_at(bytes, at)).ok()
}

// What is left is no whole item.
fn cut(size: usize) -> Item
    ensures { result.next ≡ size }
{
    let body = Part { at: size, len: 0 };
    Item {
        kind: None,
        body,
        next: size,
    }
}

// No file has contents.
pub fn no_files() -> Files {
    let part = Part { at: 0, len: 0 };
    Files {
        parts: [part; FILES],
    }
}

// What an item is counted as: a part is named by eight bytes, and an item that names it by other ones is none that is known, though it sets its
// file.
pub fn kind_of(item: Item) -> Option<Kind>
    ensures { result ≡ counted_kind item.kind item.body.len }
{
    match item.kind {
        Some(Kind::Names(_)) if item.body.len != 8 => None,
        kind => kind,
    }
}

// The files behind an item: one that it sets is its body, or the part that its body names.
pub fn files_after(bytes: &[u8], files: Files, item: Item) -> Files
    ensures { result.parts ≡ parts_after bytes.now files.parts item.body item.kind }
{
    match item.kind {
        Some(Kind::Sets(file)) => with_file(files, file, item.body),
        Some(Kind::Names(file)) => with_file(files, file, named_part(bytes, item.body)),
        Some(Kind::Call(_)) | None => files,
    }
}

// The part that eight bytes name: its start and its length.
fn named_part(bytes: &[u8], body: Part) -> Part
    ensures { result ≡ named bytes.now body }
{
    let numbers = lent(bytes, body);
    Part {
        at: words::u32_at(numbers, 0) as usize,
        len: words::u32_at(numbers, 4) as usize,
    }
}

fn with_file(mut files: Files, file: File, part: Part) -> Files
    ensures { result.parts ≡ slice_set files.parts (file_number file) part }
{
    files.parts[file as usize] = part;
    files
}

// The contents of the file of a number.
pub fn file<'a>(bytes: &'a [u8], files: Files, k: u8) -> &'a [u8]
    ensures { result.now ≡ contents_of bytes.now files.parts k }
{
    match File::try_from(k) {
        Ok(file) => contents(bytes, files, file),
        Err(_) => &bytes[..0],
    }
}

// The contents of a file.
pub fn contents<'a>(bytes: &'a [u8], files: Files, file: File) -> &'a [u8]
    ensures { result.now ≡ contents_of bytes.now files.parts (file_number file) }
{
    lent(bytes, files.parts[file as usize])
}

// A part of s, as far as s reaches.
pub fn lent<'a>(s: &'a [u8], part: Part) -> &'a [u8]
    ensures { result.now ≡ take part.len (drop part.at s.now) }
{
    serializer::lent(s, part.at, part.len)
}

// The first n bytes of a buffer, or all.
pub fn first<'a>(s: &'a mut [u8], n: usize) -> &'a mut [u8] {
    if n <= s.len() {
        return &mut s[..n];
    }
    s
}

// What is behind the first n bytes of s.
pub fn behind<'a>(s: &'a [u8], n: usize) -> &'a [u8]
    ensures { result.now ≡ take (length s.now) (drop n s.now) }
{
    serializer::lent(s, n, s.len())
}
