// The length of an array.
ghost use Rattle.std.specs.Prelude.{◌≡◌, ◌+◌, ◌/◌, max, length};
ghost use Rattle.serializer.specs.mirror.Search.{len_searched};
ghost use Rattle.serializer.specs.Length.{room_for, agrees, plain_field, smi_field, plain_or, chosen};

// array_len of an object and its slots.
#[tactic(auto, unfolding(crate::specs::mirror::Search::len_searched))]
pub fn array_len_unchecked(slots: &[u8], payload: &[u8], object: store::Object, ts: u8) -> u64
    ensures { result ≡ len_searched slots.now payload.now object ts }
{
    let first = object.first;
    let count = object.count;
    let plain = plain_field(
        payload,
        crate::runs::raw_at_unchecked(slots, first, count, ts, ts as u64, 4),
    );
    let tagged = smi_field(
        payload,
        ts,
        crate::runs::raw_at_unchecked(slots, first, count, ts, ts as u64, ts as u64),
    );
    chosen(object, ts, plain, tagged).min(most_elements(payload, ts))
}

// As many elements as the payload has slots, and 2.
fn most_elements(payload: &[u8], ts: u8) -> u64
    ensures { result ≡ length payload.now / max ts 1 + 2 }
{
    payload.len() as u64 / ts.max(1) as u64 + 2
}

fn plain_field(payload: &[u8], field: Option<usize>) -> u32
    ensures { result ≡ plain_field payload.now field }
{
    match field {
        Some(at) => words::u32_at(payload, at),
        None => 0,
    }
}

fn smi_field(payload: &[u8], ts: u8, field: Option<usize>) -> Option<i64>
    ensures { result ≡ smi_field payload.now ts field }
{
    crate::integers::smi_at(payload, field?, ts as usize)
}

// The length that the object's size, or its mark, decides for.
#[tactic(auto, using(words::proofs::Signs::bits_64))]
fn chosen(object: store::Object, ts: u8, plain: u32, tagged: Option<i64>) -> u64
    ensures { result ≡ chosen object ts plain tagged }
{
    let Some(v) = tagged else {
        return plain_or(object, ts, plain, 0);
    };
    let n = v.cast_unsigned();
    if agrees(object.byte_size, ts, n) {
        n
    } else {
        plain_or(object, ts, plain, n)
    }
}

fn plain_or(object: store::Object, ts: u8, plain: u32, n: u64) -> u64
    ensures { result ≡ plain_or object ts plain n }
{
    if agrees(object.byte_size, ts, plain as u64) || object.raw_len {
        plain as u64
    } else {
        n
    }
}

// Whether an object of that size has n elements, of ts or of 8 bytes.
fn agrees(size: u32, ts: u8, n: u64) -> bool
    ensures { result ≡ agrees size ts n }
{
    n == room_for(size, ts, ts) || n == room_for(size, ts, 8)
}

// How many elements of unit bytes fit behind the object's first two slots.
fn room_for(size: u32, ts: u8, unit: u8) -> u64
    ensures { result ≡ room_for size ts unit }
{
    (size.saturating_sub(2 * ts as u32) / unit.max(1) as u32) as u64
}
