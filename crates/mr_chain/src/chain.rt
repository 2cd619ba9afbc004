//! Cursors whose lists follow one another, as one: the runs of a level.
ghost use Rattle.std.specs.Prelude.{◌≡◌, ◌<◌, ◌≤◌, ◌+◌, ℕ, [], true, false, IsTrue, IsSome, IfOk, OnOk, length, map, get_or, None};
ghost use Rattle.std.specs.List.{AllByRecursion, list_all};
ghost use Rattle.mr_iter.specs.Cursors.{CursorState};
ghost use Rattle.mr_iter.specs.Children.{AnyOf};
ghost use Rattle.mr_base.specs.Disk.{Image};
ghost use Rattle.mr_iter.specs.Merging.{current_at, lists, IsOneDirection};
ghost use Rattle.mr_iter.specs.MergeFiles.{merge_not_whole, merge_offends_by_files};
ghost use Rattle.mr_chain.specs.Chains.{chain_state, child_of as child_in, comes_before, ascend, FollowOne, IsChain, IsChainWhole, IsChainSteady};
ghost use Rattle.mr_chain.specs.ChainLaws.{IsChain-prop, chain_in_order, chain_bounded, chain_going, chain_costs, chain_to_end, chain_by_files};

use mr_base::{Blob, Direction, Disk, Stop};
use mr_iter::{Cursor, Listed, compare_keys};

/// One cursor over many whose lists follow one another. Beside each stands its last key, by which a seek opens one child alone: the
/// first whose last key isn't before the key. The next child is opened where the one before it is at its end.
#[derive(Drop)]
pub struct Chain<C: Listed> {
    children: Vec<C>,
    lasts: Vec<Blob>,
    direction: Direction,
    from: usize,
    here: usize,
    placed: bool,
    ghost chain: { IsChain direction lasts.items from here (map C.cursor children.items) } by { IsChain-prop direction lasts.items from here (map C.cursor children.items) },
}

fn is_before(direction: Direction, lasts: &[Blob], at: usize, key: &[u8]) -> bool
    requires { at < length lasts.now }
    ensures { result ≡ comes_before direction key.now (get_or lasts.now at []) }
{
    compare_keys(direction, lasts[at].as_slice(), key).is_lt()
}

/// How many of the last keys come before a key.
fn child_of(direction: Direction, lasts: &[Blob], key: &[u8]) -> usize
    requires { ascend direction lasts.now ≡ true }
    ensures { result ≡ child_in direction lasts.now key.now }
{
    let mut low = 0;
    let mut high = lasts.len();
    'halving: while low < high {
        let middle = low + (high - low) / 2;
        if is_before(direction, lasts, middle, key) {
            low = middle + 1;
        } else {
            high = middle;
        }
    }
    low
}

/// The child in which a chain stands on a version.
fn child<'a, C: Listed>(children: &'a [C], here: usize) -> &'a C
    requires { IsSome (current_at (map C.cursor children.now) here) }
    ensures { (C.cursor result.now).current ≡ current_at (map C.cursor children.now) here }
{
    &children[here]
}

impl<C: Listed> Listed for Chain<C> {
    ghost use Rattle.mr_iter.specs.Children.{AnyOf};

    ghost cursor = { λ m. chain_state m.direction m.lasts.items m.placed m.from m.here (map C.cursor m.children.items) };

    ghost whole = { λ m image. IsChainWhole C.cursor C.whole m.direction m.lasts.items m.placed m.here m.children.items image };

    ghost offends = { λ m image file at. AnyOf (λ c. C.offends c image file at) m.children.items };

    ghost steady = { λ m image. IsChainSteady C.cursor C.steady m.direction m.lasts.items m.placed m.from m.here m.children.items image };

    #[tactic(auto, using(crate::proofs::Reading::none_above, crate::proofs::Reading::current_of))]
    fn at_end(&self) -> bool {
        if !self.placed {
            return true;
        }
        if self.here >= self.children.len() {
            return true;
        }
        self.children[self.here].at_end()
    }

    fn key(&self) -> &[u8] {
        child::<C>(&self.children, self.here).key()
    }

    fn value(&self) -> &[u8] {
        child::<C>(&self.children, self.here).value()
    }

    fn sequence(&self) -> u64 {
        child::<C>(&self.children, self.here).sequence()
    }

    fn is_put(&self) -> bool {
        child::<C>(&self.children, self.here).is_put()
    }

    ghost not_whole = { λ m image file at any whole. merge_not_whole C.cursor C.whole C.offends C.not_whole m.children.items image file at any whole.each };

    ghost in_order = { λ m image whole. chain_in_order C.cursor C.whole C.in_order m.direction image m.lasts.items m.placed m.from m.here m.children.items m.chain.one whole };

    ghost by_files = { λ m i j same whole. chain_by_files C.cursor C.whole C.steady C.by_files m.direction i j m.lasts.items m.placed m.from m.here m.children.items same whole };

    ghost offends_by_files = { λ m i j file at same any. merge_offends_by_files C.cursor C.whole C.offends C.offends_by_files m.direction [] m.children.items i j file at same any };

    ghost in_place = { λ m image whole steady. steady.place };

    ghost costs = { λ m image k whole steady one key. chain_costs C.cursor C.whole C.steady C.costs C.to_end C.in_place m.direction image k m.lasts.items m.placed m.from m.here m.children.items whole steady one key };

    ghost to_end = { λ m image k place whole. chain_to_end C.cursor C.whole C.steady C.costs C.to_end C.in_place m.direction image k m.lasts.items m.placed m.from m.here m.children.items place whole };

    ghost going = { λ m is. chain_going C.cursor C.going m.placed m.children.items m.here is };

    ghost bounded = { λ m. chain_bounded C.cursor C.bounded m.children.items m.here };
}

impl<C: Listed> Chain<C> {
    /// The lists of the children, one after another; beside each child stands its last key.
    pub fn new(children: Vec<C>, lasts: Vec<Blob>, direction: Direction) -> Chain<C>
        requires direction { IsOneDirection direction (map C.cursor children.items) }
        requires anew { list_all (λ (c : CursorState). c.anew) (map C.cursor children.items) ≡ true }
        requires lasts { length lasts.items ≡ length children.items }
        requires ascending { ascend direction lasts.items ≡ true }
        ensures state { ⟦<Chain<C> as Listed>⟧.cursor result ≡ chain_state direction lasts.items false (length children.items) (length children.items) (map C.cursor children.items) }
        ensures whole { (image : Image) → AllByRecursion (λ c. C.whole c image) children.items → FollowOne direction lasts.items (lists (map C.cursor children.items) image) → ⟦<Chain<C> as Listed>⟧.whole result image }
        ensures offends { (image : Image) (file at : ℕ) → ⟦<Chain<C> as Listed>⟧.offends result image file at → AnyOf (λ c. C.offends c image file at) children.items }
    {
        let count = children.len();
        Chain {
            children,
            lasts,
            direction,
            from: count,
            here: count,
            placed: false,
        }
    }
}

impl<D: Disk, C: Cursor<D>> Cursor<D> for Chain<C> {
    fn seek(&mut self, disk: &mut D, key: &[u8]) -> Result<(), Stop> {
        let from = child_of(self.direction, &self.lasts, key);
        self.placed = false;
        self.from = from;
        self.here = from;
        if from >= self.children.len() {
            return Ok(());
        }
        match self.children[from].seek(disk, key) {
            Ok(()) => {}
            Err(stop) => return Err(stop),
        }
        self.placed = true;
        Ok(())
    }

    fn next(&mut self, disk: &mut D) -> Result<(), Stop> {
        let here = self.here;
        let count = self.children.len();
        self.placed = false;
        match self.children[here].next(disk) {
            Ok(()) => {}
            Err(stop) => return Err(stop),
        }
        if !self.children[here].at_end() || here + 1 >= count {
            self.placed = true;
            return Ok(());
        }
        self.here = here + 1;
        match self.children[here + 1].seek(disk, self.lasts[here].as_slice()) {
            Ok(()) => {}
            Err(stop) => return Err(stop),
        }
        self.placed = true;
        Ok(())
    }
}
