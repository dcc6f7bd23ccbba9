// The tags of kept words: 64 sets of 4. A tag is a word's address and 1, so that 0 is an empty entry. A word's set is its number's last six bits.
ghost use Rattle.std.specs.Prelude.{◌≡◌, ◌+◌, ◌*◌, ◌/◌, ◌%◌, ◌^◌, ◌<◌, ◌≤◌, replicate, IfSome};
ghost use Rattle.entries.specs.Tags.{tag_at, set_of, Fewer, Dropped, Without};

// The arrays are nested and by value, and a tag is a number, since the scope names that form and one comparison finds it.
pub type Tags = [[u64; 4]; 64];

pub fn set_of(at: u32) -> usize
    ensures value { result ≡ set_of at }
    ensures small { result < 64 }
{
    (at / 4 % 64) as usize
}

pub fn tag_of(at: u32) -> u64
    ensures { result ≡ at + 1 }
{
    at as u64 + 1
}

pub fn no_tags() -> Tags
    ensures { result ≡ replicate 64 (replicate 4 0) }
{
    [[0; 4]; 64]
}

// The first way of a set in which a tag stands.
pub fn way_of(tags: &Tags, set: usize, tag: u64) -> Option<usize>
    requires { set < 64 }
    ensures { IfSome result (λ way. (way < 4) × (tag_at tags.now set way ≡ tag)) }
{
    tags[set].iter().position(|kept| *kept == tag)
}

// A way is emptied where the tag stands in it.
fn drop_way(tags: &mut Tags, set: usize, way: usize, tag: u64)
    requires { (set < 64) × ((way < 4) × (0 < tag)) }
    ensures { Fewer tags.old tags.new × (tag_at tags.new set way ≡ tag → ⊥) }
{
    if tags[set][way] == tag {
        tags[set][way] = 0;
    }
}

// The entries of the word that has an address are dropped.
fn drop_word(tags: &mut Tags, at: u64)
    requires { at < 2 ^ 33 }
    ensures { Dropped tags.old tags.new at }
{
    let set = (at / 4 % 64) as usize;
    let tag = at / 4 * 4 + 1;
    for way in 0..4 {
        drop_way(tags, set, way, tag);
    }
}

// Those of the words that have the n bytes at an address: two at most, as the board serves no others.
pub fn drop_bytes(tags: &mut Tags, at: u32, n: usize)
    requires { (0 < n) × (n ≤ 8) }
    ensures { Fewer tags.old tags.new × (at % 4 + n ≤ 8 → Without tags.new at n) }
{
    let first = at as u64;
    let last = first + (n - 1) as u64;
    drop_word(tags, first);
    if last / 4 != first / 4 {
        drop_word(tags, last);
    }
}

// Those of the block of 32 bytes that has an address.
#[tactic(auto, using(crate::proofs::Drops::eight_dropped))]
pub fn drop_block(tags: &mut Tags, at: u32)
    ensures { Fewer tags.old tags.new × Without tags.new (at / 32 * 32) 32 }
{
    let base = (at / 32 * 32) as u64;
    for word in 0..8 {
        drop_word(tags, base + 4 * word);
    }
}
