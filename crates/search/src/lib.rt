// A breadth-first search over a graph that lies in lent numbers (specs/mirror/Kept.antt): level after level, each instruction expanded once.
// No opcode is known here: who has decoded the instructions keeps of each a head, and a word where it jumps.
#![tactic(auto)]

ghost use Rattle.std.specs.Prelude.{◌≡◌, ◌≤◌, ◌<◌, ◌+◌, ◌/◌, ◌%◌, true, false, length, get_or, replicate};
ghost use Rattle.graph.specs.Lists.{any};
ghost use Rattle.graph.specs.Graph.{Answer, is_start, Succ, exits};
ghost use Rattle.graph.specs.mirror.Queue.{Held, Grown, SuccIn, Quiet, Lowest, lower_of};
ghost use Rattle.targets.specs.Targets.{smi_of, target_from};
ghost use Rattle.targets.specs.mirror.Search.{pool_searched, PoolBlocked};
ghost use Rattle.search.specs.mirror.Kept.{size_of, here_of, count_of, shown, entries_from, target_steps, table_steps, on_steps, catch_steps, graph_by};
ghost use Rattle.search.specs.mirror.Kept.{off_heads, Goes, Below, finding_as, Fits, IsFound};

use serializer::Elem;
use targets::PoolSlots;

// Closed, or the steps of the shortest walk that leaves and the offset it leaves from. No Option: "closed" is 01's answer, and none would say that there
// is none.
#[derive(Clone, Copy)]
pub enum Walked {
    Closed,
    Leaves(usize, usize),
}

// Where the elements of a table are read: the tagged size and the pool.
#[derive(Clone, Copy)]
pub struct Elements {
    pub ts: u8,
    pub pool: Option<PoolSlots>,
}

// The walks of the graph that is kept in heads and words. Where the room does not fit, closed, and nothing is written.
pub fn search(
    slots: &[u8],
    payload: &[u8],
    e: Elements,
    heads: &[u32],
    words: &[u32],
    catches: &[u32],
    marks: &mut [u8],
    queue: &mut [u16],
) -> Walked
    ensures { Fits heads.now marks.old queue.old
        → IsFound (graph_by slots.now payload.now e.ts e.pool
        heads.now words.now catches.now)
        (length heads.now) result marks.new }
{
    let n = heads.len();
    if 65536 < n || marks.len() != n || queue.len() < n {
        return Walked::Closed;
    }
    let blocks = targets::pool_blocks(slots, e.ts, e.pool);
    search_in(
        slots, payload, &blocks, e, heads, words, catches, marks, queue,
    )
}

// The search in room that fits.
fn search_in(
    slots: &[u8],
    payload: &[u8],
    blocks: &[u32],
    e: Elements,
    heads: &[u32],
    words: &[u32],
    catches: &[u32],
    marks: &mut [u8],
    queue: &mut [u16],
) -> Walked
    requires { Fits heads.now marks.old queue.old
        × PoolBlocked slots.now e.ts e.pool blocks.now }
    ensures { IsFound (graph_by slots.now payload.now e.ts e.pool
        heads.now words.now catches.now)
        (length heads.now) result marks.new }
{
    marks.fill(0);
    if number_at(heads, 0) == 0 {
        return Walked::Closed;
    }
    levels(
        slots, payload, blocks, e, heads, words, catches, marks, queue,
    )
}

// Level after level, until one has an entry that exits or nothing new is reached.
fn levels(
    slots: &[u8],
    payload: &[u8],
    blocks: &[u32],
    e: Elements,
    heads: &[u32],
    words: &[u32],
    catches: &[u32],
    marks: &mut [u8],
    queue: &mut [u16],
) -> Walked
    requires { Held marks.old queue.old 0 × (length marks.old ≡ length heads.now)
        × (is_start (graph_by slots.now payload.now e.ts e.pool heads.now words.now catches.now) 0 ≡ true)
        × PoolBlocked slots.now e.ts e.pool blocks.now }
    ensures { Answer (graph_by slots.now payload.now e.ts e.pool
        heads.now words.now catches.now)
        (length heads.now) marks.new (finding_as result) }
{
    let mut lo = 0;
    let mut hi = push(marks, queue, 0, 0);
    let mut d = 0;
    // No range to go through: how many levels there are is known behind the last one only.
    while lo < hi {
        let f = lowest(
            slots, payload, blocks, e, heads, words, catches, queue, lo, hi,
        );
        if let Some(o) = f {
            let steps = d + 1;
            return Walked::Leaves(steps, o);
        }
        let end = push_level(
            slots, payload, blocks, e, heads, words, catches, marks, queue, lo, hi,
        );
        lo = hi;
        hi = end;
        d += 1;
    }
    Walked::Closed
}

// The lowest of the queue's entries lo to hi that exits.
fn lowest(
    slots: &[u8],
    payload: &[u8],
    blocks: &[u32],
    e: Elements,
    heads: &[u32],
    words: &[u32],
    catches: &[u32],
    queue: &[u16],
    lo: usize,
    hi: usize,
) -> Option<usize>
    requires { (lo ≤ hi) × (hi ≤ length queue.now)
        × PoolBlocked slots.now e.ts e.pool blocks.now }
    ensures { Lowest (graph_by slots.now payload.now e.ts e.pool
        heads.now words.now catches.now)
        queue.now lo hi result }
{
    let mut f = None;
    for i in lo..hi {
        let o = queue[i];
        if exits(slots, payload, blocks, e, heads, words, catches, o) {
            f = lower(f, o);
        }
    }
    f
}

// The lower of what was found and o: `lower_of`, a step of `Lowest`, so a function of its own.
fn lower(f: Option<usize>, o: u16) -> Option<usize>
    ensures { result ≡ lower_of f o }
{
    let o = o as usize;
    Some(f.map_or(o, |p| p.min(o)))
}

// Pushes where the queue's entries lo to hi go, of which none exits.
fn push_level(
    slots: &[u8],
    payload: &[u8],
    blocks: &[u32],
    e: Elements,
    heads: &[u32],
    words: &[u32],
    catches: &[u32],
    marks: &mut [u8],
    queue: &mut [u16],
    lo: usize,
    hi: usize,
) -> usize
    requires { Held marks.old queue.old hi × (length marks.old ≡ length heads.now) × (lo ≤ hi)
        × Quiet (graph_by slots.now payload.now e.ts e.pool heads.now words.now catches.now) queue.old lo hi
        × PoolBlocked slots.now e.ts e.pool blocks.now }
    ensures { Grown queue.old hi marks.new queue.new result
        (SuccIn (graph_by slots.now payload.now e.ts e.pool
        heads.now words.now catches.now)
        queue.old lo hi) }
{
    let mut end = hi;
    for i in lo..hi {
        let o = queue[i];
        end = push_steps(
            slots, payload, blocks, e, heads, words, catches, o, marks, queue, end,
        );
    }
    end
}

// Whether some step from o leaves.
fn exits(
    slots: &[u8],
    payload: &[u8],
    blocks: &[u32],
    e: Elements,
    heads: &[u32],
    words: &[u32],
    catches: &[u32],
    o: u16,
) -> bool
    requires { PoolBlocked slots.now e.ts e.pool blocks.now }
    ensures { result ≡ exits (graph_by slots.now payload.now e.ts e.pool
        heads.now words.now catches.now) o }
{
    let h = number_at(heads, o as usize);
    on_leaves(heads, o, h)
        || target_leaves(heads, words, o, h)
        || catch_leaves(heads, catches, o)
        || h / 1024 % 2 == 1 && table_leaves(slots, payload, blocks, e, heads, words, o, h)
}

// Whether the instruction at o with head h goes on to a place where none starts.
fn on_leaves(heads: &[u32], o: u16, h: u32) -> bool
    ensures { result ≡ any (off_heads heads.now) (on_steps o h) }
{
    h / 256 % 2 == 1 && number_at(heads, end_of(o, h)) == 0
}

// Whether it has a target where none starts.
fn target_leaves(heads: &[u32], words: &[u32], o: u16, h: u32) -> bool
    ensures { result ≡ any (off_heads heads.now) (target_steps words.now o h) }
{
    h / 512 % 2 == 1 && number_at(heads, number_at(words, o as usize) as usize) == 0
}

// Whether it has a handler where none starts.
fn catch_leaves(heads: &[u32], catches: &[u32], o: u16) -> bool
    ensures { result ≡ any (off_heads heads.now) (catch_steps catches.now o) }
{
    let c = number_at(catches, o as usize);
    c != 0 && number_at(heads, (c - 1) as usize) == 0
}

// Whether some entry of its table goes where none starts.
fn table_leaves(
    slots: &[u8],
    payload: &[u8],
    blocks: &[u32],
    e: Elements,
    heads: &[u32],
    words: &[u32],
    o: u16,
    h: u32,
) -> bool
    requires { PoolBlocked slots.now e.ts e.pool blocks.now }
    ensures { result ≡ any (off_heads heads.now)
        (entries_from (pool_searched slots.now payload.now e.ts e.pool) (here_of o h)
        (get_or words.now o 0) (count_of h)) }
{
    let at = here_of(o, h);
    let first = number_at(words, o as usize);
    let count = h / 4096;
    for k in 0..count {
        let target = entry_target(slots, payload, blocks, e, at, first as u64 + k as u64);
        if off_target(heads, target) {
            return true;
        }
    }
    false
}

// Whether an entry is shown and goes where none starts.
fn off_target(heads: &[u32], target: Option<u64>) -> bool
    ensures { result ≡ any (off_heads heads.now) (shown target) }
{
    target.is_some_and(|t| number_at(heads, t as usize) == 0)
}

// Pushes where the instruction at o goes, of which no step leaves.
fn push_steps(
    slots: &[u8],
    payload: &[u8],
    blocks: &[u32],
    e: Elements,
    heads: &[u32],
    words: &[u32],
    catches: &[u32],
    o: u16,
    marks: &mut [u8],
    queue: &mut [u16],
    tail: usize,
) -> usize
    requires { Held marks.old queue.old tail × (length marks.old ≡ length heads.now)
        × (exits (graph_by slots.now payload.now e.ts e.pool heads.now words.now catches.now) o ≡ false)
        × PoolBlocked slots.now e.ts e.pool blocks.now }
    ensures { Grown queue.old tail marks.new queue.new result
        (Succ (graph_by slots.now payload.now e.ts e.pool
        heads.now words.now catches.now) o) }
{
    let h = number_at(heads, o as usize);
    let a = push_on(o, h, marks, queue, tail);
    let t = push_target(words, o, h, marks, queue, a);
    let b = push_catch(catches, o, marks, queue, t);
    if h / 1024 % 2 == 1 {
        return push_table(slots, payload, blocks, e, words, o, h, marks, queue, b);
    }
    b
}

// Pushes the end of the instruction at o with head h, if it goes on.
fn push_on(o: u16, h: u32, marks: &mut [u8], queue: &mut [u16], tail: usize) -> usize
    requires { Held marks.old queue.old tail × Below (on_steps o h) (length marks.old) }
    ensures { Grown queue.old tail marks.new queue.new result (Goes (on_steps o h)) }
{
    if h / 256 % 2 == 1 {
        return push(marks, queue, tail, end_of(o, h));
    }
    tail
}

// Pushes its target, if it has one.
fn push_target(
    words: &[u32],
    o: u16,
    h: u32,
    marks: &mut [u8],
    queue: &mut [u16],
    tail: usize,
) -> usize
    requires { Held marks.old queue.old tail × Below (target_steps words.now o h) (length marks.old) }
    ensures { Grown queue.old tail marks.new queue.new result (Goes (target_steps words.now o h)) }
{
    if h / 512 % 2 == 1 {
        let t = number_at(words, o as usize);
        return push(marks, queue, tail, t as usize);
    }
    tail
}

// Pushes its handler, if it has one.
fn push_catch(catches: &[u32], o: u16, marks: &mut [u8], queue: &mut [u16], tail: usize) -> usize
    requires { Held marks.old queue.old tail × Below (catch_steps catches.now o) (length marks.old) }
    ensures { Grown queue.old tail marks.new queue.new result (Goes (catch_steps catches.now o)) }
{
    let c = number_at(catches, o as usize);
    if c == 0 {
        return tail;
    }
    push(marks, queue, tail, (c - 1) as usize)
}

// Pushes where the entries of its table go.
fn push_table(
    slots: &[u8],
    payload: &[u8],
    blocks: &[u32],
    e: Elements,
    words: &[u32],
    o: u16,
    h: u32,
    marks: &mut [u8],
    queue: &mut [u16],
    tail: usize,
) -> usize
    requires { Held marks.old queue.old tail
        × Below (entries_from (pool_searched slots.now payload.now e.ts e.pool) (here_of o h) (get_or words.now o 0) (count_of h)) (length marks.old)
        × PoolBlocked slots.now e.ts e.pool blocks.now }
    ensures { Grown queue.old tail marks.new queue.new result
        (Goes (entries_from (pool_searched slots.now payload.now e.ts e.pool) (here_of o h)
        (get_or words.now o 0) (count_of h))) }
{
    let at = here_of(o, h);
    let first = number_at(words, o as usize);
    let count = h / 4096;
    let mut end = tail;
    for k in 0..count {
        let target = entry_target(slots, payload, blocks, e, at, first as u64 + k as u64);
        end = push_entry(target, marks, queue, end);
    }
    end
}

// Pushes where an entry goes, if it is shown.
fn push_entry(target: Option<u64>, marks: &mut [u8], queue: &mut [u16], tail: usize) -> usize
    requires { Held marks.old queue.old tail × Below (shown target) (length marks.old) }
    ensures { Grown queue.old tail marks.new queue.new result (Goes (shown target)) }
{
    match target {
        Some(t) => push(marks, queue, tail, t as usize),
        None => tail,
    }
}

// Marks t and puts it behind the queue's entries, unless it is marked.
fn push(marks: &mut [u8], queue: &mut [u16], tail: usize, t: usize) -> usize
    requires { Held marks.old queue.old tail × (t < length marks.old) }
    ensures { Grown queue.old tail marks.new queue.new result (λ p. p ≡ t) }
{
    if marks[t] == 0 {
        marks[t] = 1;
        queue[tail] = t as u16;
        return tail + 1;
    }
    tail
}

// Where the entry with element n goes, its distance counted from place at; nowhere where it is skipped.
fn entry_target(
    slots: &[u8],
    payload: &[u8],
    blocks: &[u32],
    e: Elements,
    at: u64,
    n: u64,
) -> Option<u64>
    requires { PoolBlocked slots.now e.ts e.pool blocks.now }
    ensures { result ≡ target_from at (smi_of (pool_searched slots.now payload.now e.ts e.pool n)) }
{
    let Some(Elem::Smi(v)) = targets::pool_elem_in(slots, payload, blocks, e.ts, e.pool, n) else {
        return None;
    };
    Some(words::target_after(at, v))
}

// Where the instruction at o with head h ends.
fn end_of(o: u16, h: u32) -> usize
    ensures { result ≡ o + size_of h }
{
    o as usize + (h % 256) as usize
}

// Where its distances count from.
fn here_of(o: u16, h: u32) -> u64
    ensures { result ≡ here_of o h }
{
    o as u64 + (h / 2048 % 2) as u64
}

// The number at place i, a head or a word; 0 past the end.
fn number_at(numbers: &[u32], i: usize) -> u32
    ensures { result ≡ get_or numbers.now i 0 }
{
    numbers.get(i).copied().unwrap_or(0)
}
