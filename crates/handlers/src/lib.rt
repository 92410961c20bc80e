// Handler records: checks 24 and 25, and a table with the handler of each place of a code, made once for a search.
#![tactic(auto)]

ghost use Rattle.std.specs.Prelude.{◌≡◌, ◌≤◌, ◌<◌, ◌+◌, ◌*◌, ◌/◌, max, cond, not, length, get_or};
ghost use Rattle.refusal.specs.Check.{first_bad};
ghost use Rattle.flow.specs.Flow.{is_return};
ghost use Rattle.handlers.specs.Handlers.{handler_count, range_start, range_end, handlers_whole, bad_handler, check_handlers};
ghost use Rattle.handlers.specs.mirror.Catches.{opcode_at, word_by, Painted, Filled, Said, Laid, Caught, Fits};
ghost use Rattle.refusal.specs.Check.{Check};
ghost use Rattle.refusal.specs.declared.Fault.TheVariants as fault;

use refusal::{Fault, Refusal};
use tables::Prefixes;

// A record in bytes, and how many there may be.
const HANDLER_SIZE: usize = 12;

const MOST_HANDLERS: usize = 4096;

// The longest code: at that place no instruction starts.
const MOST_CODE: usize = 65536;

// Places in a block.
const BLOCK: usize = 256;

// Checks 24 and 25, for a code of so many bytes.
#[tactic(auto, unfolding(crate::specs::Handlers::check_handlers))]
pub fn check_handlers(handlers: &[u8], len: usize) -> Result<(), Refusal>
    ensures { result ≡ check_handlers handlers.now len }
{
    refusal::refuse_unless(are_whole(handlers.len()), Fault::HandlersSize)?;
    check_ranges(handlers, len)
}

// Whole records, and not too many.
fn are_whole(n: usize) -> bool
    ensures { result ≡ handlers_whole n }
{
    n % HANDLER_SIZE == 0 && n / HANDLER_SIZE <= MOST_HANDLERS
}

// The first record whose range is empty or ends beyond the code.
fn check_ranges(handlers: &[u8], len: usize) -> Result<(), Refusal>
    ensures { result ≡ first_bad fault.BadHandler (bad_handler handlers.now len) (handler_count handlers.now) }
{
    let n = handlers.len() / HANDLER_SIZE;
    for i in 0..n {
        if !is_range(handlers, i, len) {
            return refusal::at_record(Fault::BadHandler, i, n);
        }
    }
    Ok(())
}

fn is_range(handlers: &[u8], r: usize, len: usize) -> bool
    requires { r < handler_count handlers.now }
    ensures { not result ≡ bad_handler handlers.now len r }
{
    let at = r * HANDLER_SIZE;
    let start = words::u32_at(handlers, at);
    let end = words::u32_at(handlers, at + 4);
    start < end && end as usize <= len
}

// The word of each place of a code, in room of zeros for it (specs/mirror/Catches.antt); in other room nothing is promised. Without records the zeros
// are the words.
pub fn catch_table(
    code: &[u8],
    opcodes: &[u8],
    handlers: &[u8],
    prefixes: Prefixes,
    catches: &mut [u32],
)
    ensures { Fits code.now handlers.now catches.old
        → Caught code.now opcodes.now handlers.now prefixes catches.new }
{
    if catches.len() != code.len()
        || MOST_CODE < code.len()
        || MOST_HANDLERS * HANDLER_SIZE < handlers.len()
    {
        return;
    }
    if handlers.is_empty() {
        return;
    }
    let mut blocks = [0u32; 256];
    catch_by(code, opcodes, handlers, prefixes, catches, &mut blocks);
}

// The same, with room for its blocks.
fn catch_by(
    code: &[u8],
    opcodes: &[u8],
    handlers: &[u8],
    prefixes: Prefixes,
    catches: &mut [u32],
    blocks: &mut [u32],
)
    requires { (length catches.old ≡ length code.now) × (length code.now ≤ 65536) × (length handlers.now ≤ 49152)
        × (length blocks.old ≡ 256) }
    ensures { Painted handlers.now catches.old blocks.old 0
        → Caught code.now opcodes.now handlers.now prefixes catches.new }
{
    paint_all(handlers, catches, blocks);
    catch_all(code, opcodes, handlers, blocks, prefixes, catches);
}

// Lays record over record, so that the last one that holds a place is said of it.
fn paint_all(handlers: &[u8], places: &mut [u32], blocks: &mut [u32])
    requires { (length places.old ≤ 65536) × (length handlers.now ≤ 49152) × (length blocks.old ≡ 256) }
    ensures { Painted handlers.now places.old blocks.old 0
        → Painted handlers.now places.new blocks.new (handler_count handlers.now) }
{
    let n = handlers.len() / HANDLER_SIZE;
    for r in 0..n {
        let at = r * HANDLER_SIZE;
        let start = words::u32_at(handlers, at);
        let end = words::u32_at(handlers, at + 4);
        paint_within(places, blocks, start, end, r as u32 + 1);
    }
}

// Says v from start up to end, as far as there are places.
fn paint_within(places: &mut [u32], blocks: &mut [u32], start: u32, end: u32, v: u32)
    requires { (length places.old ≤ 65536) × (length blocks.old ≡ 256) }
    ensures { Laid places.old blocks.old places.new blocks.new start end v }
{
    let to = (end as usize).min(places.len());
    if to <= start as usize {
        return;
    }
    paint(places, blocks, start as usize, to, v);
}

// Says v from one place up to another: block by block, and place by place what is left on either side.
fn paint(places: &mut [u32], blocks: &mut [u32], from: usize, to: usize, v: u32)
    requires { (from < to) × (to ≤ length places.old) × (length places.old ≤ 65536) × (length blocks.old ≡ 256) }
    ensures { Said places.old blocks.old places.new blocks.new from to v }
{
    let first = (from + 255) / BLOCK;
    let last = to / BLOCK;
    if last < first {
        return fill(places, from, to, v);
    }
    fill(places, from, first * BLOCK, v);
    fill(blocks, first, last, v);
    fill(places, last * BLOCK, to, v);
}

// A function of its own, since its contract says place by place what paint needs of each of its four calls.
fn fill(table: &mut [u32], from: usize, to: usize, v: u32)
    requires { (from ≤ to) × (to ≤ length table.old) }
    ensures { Filled table.old table.new from to v }
{
    table[from..to].fill(v);
}

// The word of each place, where its record was.
fn catch_all(
    code: &[u8],
    opcodes: &[u8],
    handlers: &[u8],
    blocks: &[u32],
    prefixes: Prefixes,
    catches: &mut [u32],
)
    requires { (length catches.old ≡ length code.now) × (length code.now ≤ 65536) × (length blocks.now ≡ 256) }
    ensures { Painted handlers.now catches.old blocks.now (handler_count handlers.now)
        → Caught code.now opcodes.now handlers.now prefixes catches.new }
{
    for o in 0..catches.len() {
        let r = catches[o].max(blocks[o / BLOCK]);
        catches[o] = catch_at(code, opcodes, handlers, prefixes, o, r);
    }
}

// The word of the instruction at o by the number, and one, of the last record that holds it.
fn catch_at(
    code: &[u8],
    opcodes: &[u8],
    handlers: &[u8],
    prefixes: Prefixes,
    o: usize,
    r: u32,
) -> u32
    requires { o < length code.now }
    ensures { result ≡ cond (is_return opcodes.now (opcode_at code.now prefixes o)) 0 (word_by handlers.now r) }
{
    if r == 0 {
        return 0;
    }
    if flow::is_return(opcodes, opcode_at(code, prefixes, o)) {
        return 0;
    }
    let at = (r - 1) as usize * HANDLER_SIZE + 8;
    let offset = words::u32_at(handlers, at);
    offset.min(MOST_CODE as u32) + 1
}

// The opcode of what stands at o: behind a prefix the next byte.
fn opcode_at(code: &[u8], prefixes: Prefixes, o: usize) -> u8
    requires { o < length code.now }
    ensures { result ≡ opcode_at code.now prefixes o }
{
    let b = code[o];
    if prefixes.wide == Some(b) || prefixes.extra_wide == Some(b) {
        return words::byte_at(code, o + 1);
    }
    b
}
