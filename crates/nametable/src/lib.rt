// Names, each with a number, in memory that is lent: entered one after the other, and found by a hash. The cost of finding a name does not grow
// with how many there are. Each call answers for any contents of the memory.
// For the crates above: all that is public.

#![tactic(auto)]

ghost use Rattle.std.specs.Prelude.{◌≡◌, [], ◌+◌, ◌*◌, ◌<◌, ◌≤◌, length};
ghost use Rattle.whole.specs.Whether.{Whether};
ghost use Rattle.nametable.specs.Limits.{most_lines, most_name, heads};
ghost use Rattle.nametable.specs.Holds.{Holds};
ghost use Rattle.nametable.specs.Promise.{cleared, Alike, Stands, Walk, Finds, Enters, entered, linked};
ghost use Rattle.nametable.specs.Hash.{FourIs, word_of, mix_of, few_of, many_of, chain_of_value, bucket_of_value};

// The two limits of a catalogue: its lines, and the bytes of a name.
pub const LINES: usize = 64;

pub const NAME: usize = 31;

// A name stands in a slot, from the slot's first byte on; its length stands in the last byte.
const SLOT: usize = NAME + 1;

// How many chains there are. The links hold the first of each chain, and then, for each line, the next of its chain and its number. A link is
// one more than the number of a line, or 0.
const HEADS: usize = 1024;

const NAME_BYTES: usize = LINES * SLOT;

const LINK_COUNT: usize = HEADS + 2 * LINES;

// The memory that is lent.
#[derive(Clone, Copy)]
pub struct Names {
    pub slots: [u8; NAME_BYTES],
    pub links: [u32; LINK_COUNT],
}

// ---- a name as numbers: eight bytes are one load

fn wide(b: u8) -> u64
    ensures { (result ≡ b) × (result < 256) }
{
    b as u64
}

fn four_at(s: &[u8], at: usize) -> u64
    requires { at + 4 ≤ length s.now }
    ensures { FourIs s.now at result }
{
    wide(s[at]) + 256 * wide(s[at + 1]) + 65_536 * wide(s[at + 2]) + 16_777_216 * wide(s[at + 3])
}

fn word_at(s: &[u8], at: usize) -> u64
    requires { at + 8 ≤ length s.now }
    ensures { result ≡ word_of s.now at }
{
    four_at(s, at) + 4_294_967_296 * four_at(s, at + 4)
}

fn mixed(h: u64, w: u64) -> u64
    ensures { result ≡ mix_of h w }
{
    let x = std::num::wrapping_add_u64(h, w);
    x % 4_294_967_296 * 1_640_531_527 + x / 4_294_967_296 * 2_246_822_519
}

// Fewer than eight bytes as one number: each byte stands in it at least once.
fn few(s: &[u8]) -> u64
    requires { length s.now < 8 }
    ensures { result ≡ few_of s.now }
{
    let n = s.len();
    if 4 <= n {
        return four_at(s, 0) + 4_294_967_296 * four_at(s, n - 4);
    }
    if n < 1 {
        return 0;
    }
    wide(s[0]) + 256 * wide(s[n / 2]) + 65_536 * wide(s[n - 1])
}

// Eight bytes after eight, and at the end the last eight.
fn many(s: &[u8]) -> u64
    requires { 8 ≤ length s.now }
    ensures { result ≡ many_of s.now }
{
    let last = s.len() - 8;
    let mut h = s.len() as u64;
    for i in (0..last).step_by(8) {
        h = mixed(h, word_at(s, i));
    }
    mixed(h, word_at(s, last))
}

// The number of the chain that a name belongs to.
fn bucket_of(s: &[u8]) -> usize
    ensures { (result ≡ bucket_of_value s.now) × (result < heads) }
{
    if s.len() < 8 {
        return chain_of(mixed(s.len() as u64, few(s)));
    }
    chain_of(many(s))
}

fn chain_of(h: u64) -> usize
    ensures { (result ≡ chain_of_value h) × (result < heads) }
{
    (h / 4_294_967_296 % 1024) as usize
}

// ---- whether a name stands in a slot

fn size(b: u8) -> usize
    ensures { result ≡ b }
{
    b as usize
}

fn place(x: u32) -> usize
    ensures { result ≡ x }
{
    x as usize
}

fn same_few(name: &[u8], slots: &[u8], from: usize) -> bool
    requires { from + length name.now ≤ length slots.now }
    ensures { Whether (Alike name.now slots.now from) result }
{
    for (i, b) in name.iter().enumerate() {
        if *b != slots[from + i] {
            return false;
        }
    }
    true
}

// The last bytes first, since names often begin alike.
fn same_many(name: &[u8], slots: &[u8], from: usize) -> bool
    requires { (8 ≤ length name.now) × (from + length name.now ≤ length slots.now) }
    ensures { Whether (Alike name.now slots.now from) result }
{
    let last = name.len() - 8;
    if word_at(name, last) != word_at(slots, from + last) {
        return false;
    }
    let mut i: usize = 0;
    while i < last {
        if word_at(name, i) != word_at(slots, from + i) {
            return false;
        }
        i += 8;
    }
    true
}

fn stands(name: &[u8], slots: &[u8; NAME_BYTES], k: usize) -> bool
    requires { (length name.now ≤ most_name) × (k < most_lines) }
    ensures { Whether (Stands slots.now k name.now) result }
{
    let from = k * SLOT;
    if size(slots[from + NAME]) != name.len() {
        return false;
    }
    if name.len() < 8 {
        return same_few(name, slots, from);
    }
    same_many(name, slots, from)
}

// ---- finding and entering

fn put_name(slots: &mut [u8; NAME_BYTES], k: usize, name: &[u8])
    requires { (k < most_lines) × (length name.now ≤ most_name) }
    ensures { slots.new ≡ entered slots.old k name.now }
{
    writer::buffer::copy_text(slots, k * SLOT, name);
    slots[k * SLOT + NAME] = name.len() as u8;
}

fn link(links: &mut [u32; LINK_COUNT], k: usize, chain: usize, number: u32)
    requires { (k < most_lines) × (chain < heads) }
    ensures { links.new ≡ linked links.old k chain number }
{
    let next = links[chain];
    links[HEADS + 2 * k] = next;
    links[HEADS + 2 * k + 1] = number;
    links[chain] = (k + 1) as u32;
}

impl Names {
    // Cleared memory, which holds no names.
    pub fn new() -> Names
        ensures cleared { result ≡ cleared }
        ensures empty { Holds result [] }
    {
        Names {
            slots: [0; NAME_BYTES],
            links: [0; LINK_COUNT],
        }
    }

    // From link to link. A link goes to an earlier line, so that the walk ends; where one does not, which no call here leaves behind, it ends there.
    fn walk(&self, name: &[u8], from: usize) -> Option<i32>
        requires { (length name.now ≤ most_name) × (from ≤ most_lines) }
        ensures { Walk self.now name.now from result }
    {
        let mut at = from;
        while 0 < at {
            let k = at - 1;
            if stands(name, &self.slots, k) {
                return Some(whole::lowered(self.links[HEADS + 2 * k + 1]));
            }
            let next = place(self.links[HEADS + 2 * k]);
            if at <= next {
                return None;
            }
            at = next;
        }
        None
    }

    // The number of a name, if it has one.
    pub fn find(&self, name: &[u8]) -> Option<i32>
        ensures { Finds self.now name.now result }
    {
        if NAME < name.len() {
            return None;
        }
        let chain = bucket_of(name);
        let from = place(self.links[chain]);
        if LINES < from {
            return None;
        }
        self.walk(name, from)
    }

    // Enters a name with its number as line k, if there is a slot for it and room in the slot.
    pub fn enter(&mut self, k: usize, name: &[u8], number: i32) -> bool
        ensures { Enters self.old k name.now number self.new result }
    {
        if LINES <= k {
            return false;
        }
        if NAME < name.len() {
            return false;
        }
        put_name(&mut self.slots, k, name);
        link(&mut self.links, k, bucket_of(name), whole::raised(number));
        true
    }
}
