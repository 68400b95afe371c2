// ROMix over one lent scratch with one block in k stored (RFC 7914 section 5), as a machine that
// makes one mixing a step. Its state is a small struct of costs, places and counts and holds no byte
// of a block; all bytes lie in the lent scratch, in blocks of 128·r bytes that are named by number:
//
//     lanes 0 .. p-1 | X | the block stepped forward | working block | stored V[0], V[k], V[2k] ..
//
// A single derivation runs it to the end; a derivation cut into turns runs it by allowances.
#![tactic(auto)]

ghost use Rattle.std.specs.Prelude.{◌≡◌, ◌+◌, ◌*◌, ◌/◌, ◌%◌, ◌^◌, ◌<◌, ◌≤◌, ◌≢◌, length};
ghost use Rattle.std.proofs.lemmas.List.Edits.{sets};
ghost use Rattle.lent.specs.Bytes.{part, zeros, xors, joined};
ghost use Rattle.romix.specs.ROMix.{place, ro_mix, sum, mixings};
ghost use Rattle.romix.specs.Machine.{opening, Room, Fit, block, blocks, get, put, at_x, clean, moved, more, mixed, kept, first, source, forward, settled, second, loaded, followed, finished, next, after};

use lent::LittleEndian;

// No ghost field: `Room` and `Fit` ask of a state and of the scratch lent anew each turn, and Machine.antt takes any state.
#[derive(Clone, Copy)]
pub struct State {
    // N, r and p
    pub n: usize,
    pub r: usize,
    pub p: usize,
    // one block in k is stored, w of them
    pub k: usize,
    pub w: usize,
    // the first unfinished lane; how often its X was mixed; how far ahead the stepped block is
    pub lane: usize,
    pub pos: usize,
    pub ahead: usize,
    // mixings made, in all lanes
    pub made: u64,
}

impl State {
    // The same costs and places, elsewhere.
    fn moved(self, lane: usize, pos: usize, ahead: usize, made: u64) -> State
        ensures { result ≡ moved self lane pos ahead made }
    {
        State {
            lane,
            pos,
            ahead,
            made,
            ..self
        }
    }

    // Where block i begins.
    fn at(self, i: usize) -> usize
        requires { (self.r ≤ 64) × (i * block self < 2 ^ 64) }
        ensures { result ≡ i * block self }
    {
        i * (128 * self.r)
    }

    // Block to becomes block from.
    #[tactic(auto, using(crate::proofs::Blocks::block_at))]
    fn copy_block(self, s: &mut [u8], from: usize, to: usize)
        requires { Room self (length s.old) × (from < blocks self) × (to < blocks self) × (from ≢ to) }
        ensures { s.new ≡ put self to (get self from s.old) s.old }
    {
        lent::copy_within(s, self.at(from), self.at(to), 128 * self.r);
    }

    // Block to becomes the exclusive or of blocks a and b.
    #[tactic(auto, using(crate::proofs::Blocks::block_at))]
    fn xor_blocks(self, s: &mut [u8], a: usize, b: usize, to: usize)
        requires { Room self (length s.old) × (a < blocks self) × (b < blocks self) × (to < blocks self) × (a ≢ to) × (b ≢ to) }
        ensures { s.new ≡ put self to (xors (get self a s.old) (get self b s.old)) s.old }
    {
        lent::xor_to(s, self.at(a), self.at(b), self.at(to), 128 * self.r);
    }

    // Wipes n blocks from block i on.
    #[tactic(auto, using(crate::proofs::Blocks::blocks_in))]
    fn wipe_blocks(self, s: &mut [u8], i: usize, n: usize)
        requires { Room self (length s.old) × (i + n ≤ blocks self) }
        ensures { s.new ≡ sets s.old (i * block self) (zeros (n * block self)) }
    {
        lent::wipe(s, self.at(i), self.at(n));
    }

    // Every mixing of a derivation is made here, and here it is counted: block to becomes block from,
    // mixed, and the answer is the count raised by one.
    #[tactic(auto, using(crate::proofs::Blocks::block_at))]
    fn mix(self, s: &mut [u8], from: usize, to: usize) -> u64
        requires { Room self (length s.old) × (from < blocks self) × (to < blocks self) × (from ≢ to) }
        ensures { (result ≡ more self) × (s.new ≡ mixed self from to s.old) }
    {
        mixing::block_mix(s, self.at(from), self.at(to), self.r);
        self.made.wrapping_add(1)
    }

    // X is V[i]: stores it if it is one of those that are stored.
    #[tactic(auto, using(crate::proofs::Blocks::blocks_few, crate::proofs::Blocks::stored_in), unfolding(crate::specs::Machine::kept))]
    fn keep(self, s: &mut [u8], i: usize)
        requires { Room self (length s.old) × (0 < self.k) × (self.n ≤ self.w * self.k) }
        ensures { s.new ≡ kept self i s.old }
    {
        if i % self.k == 0 && i < self.n {
            self.copy_block(s, self.p, self.p + 3 + i / self.k);
        }
    }

    // Step 2 of section 5: X becomes X mixed.
    #[tactic(auto, using(crate::proofs::Blocks::blocks_few))]
    fn pass_one(self, s: &mut [u8]) -> State
        requires { Fit self (length s.old) }
        ensures { (result, clean self s.new) ≡ first self (clean self s.old) }
    {
        let x = self.p;
        let pos = self.pos + 1;
        self.copy_block(s, x, x + 2);
        let made = self.mix(s, x + 2, x);
        self.keep(s, pos);
        self.moved(self.lane, pos, 0, made)
    }

    // The place that X names: j is its last 64 bytes, the lowest first, modulo N. N divides 2^32, so
    // four of the bytes decide it.
    #[tactic(auto, using(crate::proofs::Blocks::blocks_few, crate::proofs::Blocks::block_in))]
    fn look(self, s: &[u8]) -> usize
        requires { Fit self (length s.now) }
        ensures { (result ≡ place self.n (get self (at_x self) s.now)) × (result < self.n) }
    {
        let last = self.at(self.p + 1) - 64;
        lent::get::<LittleEndian>(s, last) as usize % self.n
    }

    // The block from which V[j] is reached, or is V[j] itself: the stored one below it, or the one that
    // was stepped forward from there.
    fn reach(self, j: usize) -> usize
        requires { (0 < self.k) × (blocks self < 2 ^ 64) × (j / self.k < self.w) }
        ensures { result ≡ source self j }
    {
        if self.ahead == 0 {
            self.p + 3 + j / self.k
        } else {
            self.p + 1
        }
    }

    // One block nearer to V[j].
    #[tactic(auto, using(crate::proofs::Blocks::blocks_few, crate::proofs::Blocks::stored_in, crate::proofs::Blocks::source_in, crate::proofs::Clean::made_mixed), unfolding(crate::specs::Machine::forward))]
    fn step_forward(self, s: &mut [u8], j: usize) -> State
        requires { Fit self (length s.old) × (j < self.n) × (self.ahead < self.k) }
        ensures { (result, clean self s.new) ≡ forward self j (clean self s.old) }
    {
        let x = self.p;
        let from = self.reach(j);
        self.copy_block(s, from, x + 2);
        let made = self.mix(s, x + 2, x + 1);
        self.moved(self.lane, self.pos, self.ahead + 1, made)
    }

    // The lookup is over: the block that was stepped forward is wiped, if there was one.
    #[tactic(auto, using(crate::proofs::Blocks::blocks_few), unfolding(crate::specs::Machine::settled))]
    fn settle(self, s: &mut [u8])
        requires { Room self (length s.old) }
        ensures { s.new ≡ settled self s.old }
    {
        if self.ahead != 0 {
            self.wipe_blocks(s, self.p + 1, 1);
        }
    }

    // Step 3 of section 5: X becomes X xor V[j], mixed.
    #[tactic(auto, using(crate::proofs::Blocks::blocks_few, crate::proofs::Blocks::stored_in, crate::proofs::Blocks::source_in))]
    fn pass_two(self, s: &mut [u8], j: usize) -> State
        requires { Fit self (length s.old) × (j < self.n) }
        ensures { (result, clean self s.new) ≡ second self j (clean self s.old) }
    {
        let x = self.p;
        let from = self.reach(j);
        self.xor_blocks(s, x, from, x + 2);
        let made = self.mix(s, x + 2, x);
        self.settle(s);
        self.moved(self.lane, self.pos + 1, 0, made)
    }

    // A lane begins: its block becomes X and V[0].
    #[tactic(auto, using(crate::proofs::Blocks::blocks_few))]
    pub fn load(self, s: &mut [u8], lane: usize)
        requires { Room self (length s.old) × (0 < self.w) × (lane < self.p) }
        ensures { s.new ≡ loaded self lane s.old }
    {
        self.copy_block(s, lane, self.p);
        self.copy_block(s, lane, self.p + 3);
    }

    // The lane after a finished one, if there is one, begins on wiped stored blocks.
    #[tactic(auto, using(crate::proofs::Blocks::blocks_few), unfolding(crate::specs::Machine::followed))]
    fn follow(self, s: &mut [u8], lane: usize)
        requires { Room self (length s.old) × (0 < self.w) }
        ensures { s.new ≡ followed self lane s.old }
    {
        if lane < self.p {
            self.wipe_blocks(s, self.p + 3, self.w);
            self.load(s, lane);
        }
    }

    // X is the lane's block in the end.
    #[tactic(auto, unfolding(crate::specs::Machine::finished))]
    fn finish(self, s: &mut [u8], made: u64) -> State
        requires { Room self (length s.old) × (0 < self.w) × (self.lane < self.p) }
        ensures { (result, s.new) ≡ finished self made s.old }
    {
        let lane = self.lane;
        self.copy_block(s, self.p, lane);
        self.follow(s, lane + 1);
        self.moved(lane + 1, 0, 0, made)
    }

    // One mixing. It asks nothing of the bytes: whatever lies in the scratch, it is safe and ends.
    #[tactic(auto, using(crate::proofs::Steps::some_stored))]
    pub fn step(self, s: &mut [u8]) -> State
        requires { Fit self (length s.old) × (self.lane < self.p) }
        ensures { (result, clean self s.new) ≡ next self (clean self s.old) }
    {
        if self.pos < self.n {
            return self.pass_one(s);
        }
        let j = self.look(s);
        if self.ahead < j % self.k {
            return self.step_forward(s, j);
        }
        let u = self.pass_two(s, j);
        if self.pos + 1 < 2 * self.n {
            return u;
        }
        self.finish(s, u.made)
    }

    // As many mixings as the allowance, or all that are left if fewer.
    pub fn run(self, s: &mut [u8], allowance: u64) -> State
        requires { Fit self (length s.old) }
        ensures { (result, clean self s.new) ≡ after allowance self (clean self s.old) }
    {
        let mut u = self;
        for _ in 0..allowance {
            if u.p <= u.lane {
                return u;
            }
            u = u.step(s);
        }
        u
    }
}

// ROMix in each of the p lanes at the front of the scratch, with one block in k stored, w of them.
// The answer is the number of mixings made. Behind the lanes the scratch is left as the machine left
// it: whoever lends it wipes it. It takes the costs as numbers: a caller with a `State` would write the
// machine's places too, and a struct of five would be made at the call and opened here.
#[tactic(auto, using(crate::proofs::Steps::some_stored))]
pub fn mix_lanes(
    n: usize,
    r: usize,
    p: usize,
    k: usize,
    w: usize,
    s: &mut [u8],
    allowance: u64,
) -> u64
    requires { Fit (opening n r p k w) (length s.old) × (0 < p) × (p * (n * (k + 1)) ≤ allowance) }
    ensures { (result ≡ sum p (λ l. mixings k r n (part (l * (128 * r)) (128 * r) s.old)))
        × (part 0 (p * (128 * r)) s.new ≡ joined p (λ l. ro_mix r n (part (l * (128 * r)) (128 * r) s.old))) }
{
    let t = State {
        n,
        r,
        p,
        k,
        w,
        lane: 0,
        pos: 0,
        ahead: 0,
        made: 0,
    };
    t.load(s, 0);
    let end = t.run(s, allowance);
    end.made
}
