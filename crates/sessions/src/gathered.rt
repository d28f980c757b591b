// The blocks that sessions keep their bytes in (RULES 4.12): the free ones, those of a place, and the bytes in them.
ghost use Rattle.std.specs.Prelude.{◌≡◌, ◌+◌, ◌*◌, ◌≤◌, ◌<◌, length, take};
ghost use Rattle.std.specs.Int.Count.{count_trailing_zeros};
ghost use Rattle.blocks.specs.Stores.{store_all};
ghost use Rattle.blocks.specs.inside.Bit.{including_all};
ghost use Rattle.bits.specs.Part.{span, splice};
ghost use Rattle.rules.specs.Blocks.{need};
ghost use Rattle.rules.specs.Limits.{sessions_max, gathered_max, blocks_max, block_size, blocks_each};
ghost use Rattle.sessions.specs.inside.Blocks.{new_to, claim_stores, Appends, tail_stores};
ghost use Rattle.state.specs.Layout.{size, free_of, joined, block_lists_at};
ghost use Rattle.state.specs.inside.Ready.{Small};

use blocks::set;
use rules::limits::{BLOCK, BLOCKS_EACH};
use state::layout::{BLOCK_LISTS_AT, BLOCKS_AT, FREE_AT};

// Internal. How many blocks n bytes need.
pub fn needed(n: usize) -> usize
    requires { n ≤ gathered_max }
    ensures { result ≡ need n }
{
    (n + (BLOCK - 1)) / BLOCK
}

// Internal. The free blocks as a set.
pub fn free(state: &[u8]) -> u64
    requires { size ≤ length state.now }
    ensures { result ≡ free_of state.now }
{
    bits::le::get_u64(state, FREE_AT)
}

// Internal. The number is that of a block, and not in the set.
pub fn is_new(all: u64, b: u32) -> bool
    ensures { result ≡ new_to all b }
{
    if 63 < b {
        return false;
    }
    !set::has(all, b)
}

// Internal. The lowest free block, or 64.
pub fn lowest(state: &[u8]) -> u32
    requires { size ≤ length state.now }
    ensures { result ≡ count_trailing_zeros blocks_max (free_of state.now) }
{
    set::lowest(free(state))
}

// Internal. The free blocks with the first n of place i.
pub fn free_with(state: &[u8], i: usize, n: usize) -> u64
    requires { ((i < sessions_max) × (size ≤ length state.now)) × ((n ≤ blocks_each) × Small (span state.now (block_lists_at + i * blocks_each) n)) }
    ensures { result ≡ including_all (free_of state.now) (span state.now (block_lists_at + i * blocks_each) n) }
{
    let at = BLOCK_LISTS_AT + i * BLOCKS_EACH;
    let mut all = free(state);
    for b in &state[at..at + n] {
        all = set::include(all, *b as u32);
    }
    all
}

// Internal. The lowest free block becomes number n of place i.
pub fn claim(state: &mut [u8], i: usize, n: usize)
    requires { ((i < sessions_max) × (size ≤ length state.old)) × ((n < blocks_each) × (count_trailing_zeros blocks_max (free_of state.old) < blocks_max)) }
    ensures { state.new ≡ store_all state.old (claim_stores (free_of state.old) i n) }
{
    let all = free(state);
    let b = set::lowest(all);
    bits::le::put_u64(state, FREE_AT, set::exclude(all, b));
    bits::le::put_at(state, BLOCK_LISTS_AT + i * BLOCKS_EACH + n, 1, b as u64);
}

// Internal. The bytes p after the n bytes of place i: they lie in one of its blocks or in two.
pub fn append(state: &mut [u8], i: usize, n: usize, p: &[u8])
    requires { Appends state.old i n p.now }
    ensures { state.new ≡ store_all state.old (tail_stores state.old i n p.now) }
{
    let at = BLOCK_LISTS_AT + i * BLOCKS_EACH + n / BLOCK;
    let start = BLOCKS_AT + state[at] as usize * BLOCK + n % BLOCK;
    if n % BLOCK + p.len() <= BLOCK {
        bits::part::copy_few(state, start, p);
        return;
    }
    let m = BLOCK - n % BLOCK;
    let next = BLOCKS_AT + state[at + 1] as usize * BLOCK;
    bits::part::copy_span(state, start, p, 0, m);
    bits::part::copy_span(state, next, p, m, p.len() - m);
}

// At most a block's worth.
fn chunk(n: usize) -> usize
    ensures { (result ≤ block_size) × ((result ≤ n) × (n ≤ block_size → result ≡ n) × (block_size ≤ n → result ≡ block_size)) }
{
    if n < BLOCK {
        return n;
    }
    BLOCK
}

// Internal. The first n bytes of the blocks of place i, to the front of `all`.
pub fn gather(state: &[u8], i: usize, n: usize, all: &mut [u8])
    requires { ((i < sessions_max) × (size ≤ length state.now)) × (((n ≤ gathered_max) × (n ≤ length all.old)) × Small (span state.now (block_lists_at + i * blocks_each) (need n))) }
    ensures { all.new ≡ splice all.old 0 (take n (joined state.now (span state.now (block_lists_at + i * blocks_each) (need n)))) }
{
    let at = BLOCK_LISTS_AT + i * BLOCKS_EACH;
    for j in 0..needed(n) {
        let from = BLOCKS_AT + state[at + j] as usize * BLOCK;
        bits::part::copy_span(all, j * BLOCK, state, from, chunk(n - j * BLOCK));
    }
}
