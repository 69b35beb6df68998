ghost use Rattle.std.specs.Prelude.{◌≡◌, ℕ, ◌+◌, ◌<◌, ◌≤◌, ℤ, pos, List, length, replicate, take, false, None, is_some, IsNone, IsSome, IfSome, IsTrue};
ghost use Rattle.dp_model.specs.Dp.{Dp, IsAllowed};
ghost use Rattle.dp_model.specs.Laws.{IsLawful, IsChained, MergesInAnyOrder};
ghost use Rattle.dp_model.specs.Gaps.{IsStateOf, within};
ghost use Rattle.dp_model.specs.Fingerprints.{IsFingerprint};

/// What `DpModel::extend` answers for an allowed decision.
#[derive(Clone, Copy, Debug, PartialEq, Eq)]
pub struct Extended {
    /// What the decision adds to the value.
    pub gain: i64,
    /// The rank of the state that it leads to.
    pub rank: i64,
}

/// What is known of a state without its row.
#[derive(Clone, Copy, Debug, PartialEq, Eq)]
pub struct Fingerprint {
    /// The rank of the state.
    pub rank: i64,
    /// The hash of the state.
    pub hash: u64,
}

/// A problem that is given as a dynamic program.
///
/// There are `vars` variables, and layer `k` decides variable `k`. A state is a row of `words` numbers, and a decision at
/// layer `k` is a number below `choices(k)`. The value of a prefix is the root value plus its gains. No call takes memory.
///
/// A value of the type is an instance of the problem. `numbers` describes the instance, and `meaning` gives the dynamic
/// program that these numbers spell. Each call answers as this program does, and the program meets six laws:
///
/// 1. The root is a state of layer 0, and steps and merges give states of their layer.
/// 2. A gap is sound.
/// 3. The gap from a state to itself is 0.
/// 4. A merged state covers what the two states cover.
/// 5. No continuation gains more than the rough bound; at the last layer it is 0.
/// 6. `vars`, `words` and `choices` are at most 1,024; cells, gains, gaps, rough bounds and the root value are at most 2^50 in
///    size.
///
/// `covers_within`, `may_cover`, `extend`, `next_hash`, `rough_by_rank`, `first_live`, `next_choice` and `merges_in_any_order` are there for
/// speed. Each has a body that uses the other calls, or none. A problem replaces this body if a shorter way is known.
pub trait DpModel: Send + Sync + Drop {
    /// The numbers that describe the instance.
    ghost numbers: { Self → List ℤ };

    /// The dynamic program that a list of such numbers spells.
    ghost meaning: { List ℤ → Dp };

    /// The number of variables, at most 1,024.
    fn vars(&self) -> usize
        ensures { result ≡ (meaning (numbers self.now)).vars };

    /// The number of cells of a state, from 1 to 1,024.
    fn words(&self) -> usize
        ensures { result ≡ (meaning (numbers self.now)).words };

    /// The number of decisions of layer `k`, from 1 to 1,024. A state may allow only some of them. `k` is less than `vars`.
    fn choices(&self, k: usize) -> u32
        requires { k < (meaning (numbers self.now)).vars }
        ensures { result ≡ (meaning (numbers self.now)).choices k };

    /// Writes the root state to `out`, which has `words` cells.
    fn root(&self, out: &mut [i64])
        requires { length out.old ≡ (meaning (numbers self.now)).words }
        ensures { out.new ≡ (meaning (numbers self.now)).root };

    /// The value of the empty prefix.
    fn root_value(&self) -> i64
        ensures { result ≡ (meaning (numbers self.now)).root_value };

    /// Whether decision `d` is allowed in state `s` of layer `k`. `k` is less than `vars`, and `d` less than `choices(k)`.
    fn allowed(&self, k: usize, s: &[i64], d: u32) -> bool
        requires layer { k < (meaning (numbers self.now)).vars }
        requires choice { d < (meaning (numbers self.now)).choices k }
        requires state { IsTrue ((meaning (numbers self.now)).is_state k s.now) }
        ensures { result ≡ (meaning (numbers self.now)).allowed k s.now d };

    /// Writes the state of layer `k + 1` that decision `d` leads to. The decision is allowed, and `out` has `words` cells.
    fn step(&self, k: usize, s: &[i64], d: u32, out: &mut [i64])
        requires state { IsTrue ((meaning (numbers self.now)).is_state k s.now) }
        requires allowed { IsAllowed (meaning (numbers self.now)) k s.now d }
        requires cells { length out.old ≡ (meaning (numbers self.now)).words }
        ensures { out.new ≡ (meaning (numbers self.now)).step k s.now d };

    /// What decision `d` adds to the value; it may be negative. The decision is allowed.
    fn gain(&self, k: usize, s: &[i64], d: u32) -> i64
        requires state { IsTrue ((meaning (numbers self.now)).is_state k s.now) }
        requires allowed { IsAllowed (meaning (numbers self.now)) k s.now d }
        ensures { result ≡ (meaning (numbers self.now)).gain k s.now d };

    /// Replaces `acc` by a state that covers every state which the old `acc` or `s` covers. Both are states of layer `k`.
    fn merge_into(&self, k: usize, acc: &mut [i64], s: &[i64])
        requires kept { IsStateOf (meaning (numbers self.now)) k acc.old }
        requires state { IsStateOf (meaning (numbers self.now)) k s.now }
        ensures { acc.new ≡ (meaning (numbers self.now)).merged k acc.old s.now };

    /// The gap from `a` to `s`, at least 0: every continuation of `s` gains at most this much more than some continuation of
    /// `a`. `None` if `a` does not cover `s`.
    fn gap(&self, k: usize, a: &[i64], s: &[i64]) -> Option<i64>
        requires covering { IsStateOf (meaning (numbers self.now)) k a.now }
        requires state { IsStateOf (meaning (numbers self.now)) k s.now }
        ensures { result ≡ (meaning (numbers self.now)).gap k a.now s.now };

    /// The rough bound: no continuation of `s` gains more. `None` if `s` is known to have no continuation.
    fn rough(&self, k: usize, s: &[i64]) -> Option<i64>
        requires { IsStateOf (meaning (numbers self.now)) k s.now }
        ensures { result ≡ (meaning (numbers self.now)).rough k s.now };

    /// The second key in the order by which a layer is reduced. A greater rank comes first.
    fn rank(&self, k: usize, s: &[i64]) -> i64
        requires { IsStateOf (meaning (numbers self.now)) k s.now }
        ensures { result ≡ (meaning (numbers self.now)).rank k s.now };

    /// The number of the state's bucket. Dominance compares only states of one bucket.
    fn bucket(&self, k: usize, s: &[i64]) -> u64
        requires { IsStateOf (meaning (numbers self.now)) k s.now }
        ensures { result ≡ (meaning (numbers self.now)).bucket k s.now };

    /// The hash of a state of layer `k`, by which the layer finds the state again. Equal states have equal hashes, and others
    /// should differ in theirs.
    fn hash(&self, k: usize, s: &[i64]) -> u64
        requires { IsStateOf (meaning (numbers self.now)) k s.now }
        ensures { result ≡ (meaning (numbers self.now)).hash k s.now };

    /// Whether the row, which has `words` cells, is a state of layer `k`. `k` is at most `vars`.
    fn is_state(&self, k: usize, s: &[i64]) -> bool
        requires layer { k ≤ (meaning (numbers self.now)).vars }
        requires cells { length s.now ≡ (meaning (numbers self.now)).words }
        ensures { result ≡ (meaning (numbers self.now)).is_state k s.now };

    /// The gap from `a` to `s` if there is one and it is at most `most`; otherwise `None`. The caller passes the ranks of both
    /// states, so that a problem can answer without reading whole rows.
    fn covers_within(
        &self,
        k: usize,
        a: &[i64],
        rank_a: i64,
        s: &[i64],
        rank_s: i64,
        most: i64,
    ) -> Option<i64>
        requires covering { IsStateOf (meaning (numbers self.now)) k a.now }
        requires covering_rank { rank_a ≡ (meaning (numbers self.now)).rank k a.now }
        requires state { IsStateOf (meaning (numbers self.now)) k s.now }
        requires rank { rank_s ≡ (meaning (numbers self.now)).rank k s.now }
        ensures { result ≡ within most ((meaning (numbers self.now)).gap k a.now s.now) }
    {
        let gap = self.gap(k, a, s)?;
        if gap <= most { Some(gap) } else { None }
    }

    /// Whether there may be a gap from `a` to `s` that is at most `most`, as far as the fingerprints of both states tell. `false` only
    /// if there is none.
    ///
    /// A problem whose gaps have a lower bound by ranks or hashes answers by it here, and no row is read. `true` is always right.
    fn may_cover(
        &self,
        k: usize,
        a: &[i64],
        of_a: Fingerprint,
        s: &[i64],
        of_s: Fingerprint,
        most: i64,
    ) -> bool
        requires covering { IsStateOf (meaning (numbers self.now)) k a.now }
        requires covering_print { IsFingerprint (meaning (numbers self.now)) k a.now of_a }
        requires state { IsStateOf (meaning (numbers self.now)) k s.now }
        requires print { IsFingerprint (meaning (numbers self.now)) k s.now of_s }
        ensures { result ≡ false → within most ((meaning (numbers self.now)).gap k a.now s.now) ≡ None }
    {
        true
    }

    /// Does `allowed`, `step`, `gain` and `rank` of the next state in one pass. `None` exactly if the decision is not allowed;
    /// then `out` is unchanged.
    ///
    /// `rank` is the rank of `s`. The first `zeros` cells of `out` are zero: a problem need not write those that are zero in the
    /// next state too.
    fn extend(
        &self,
        k: usize,
        s: &[i64],
        rank: i64,
        d: u32,
        zeros: usize,
        out: &mut [i64],
    ) -> Option<Extended>
        requires layer { k < (meaning (numbers self.now)).vars }
        requires state { IsTrue ((meaning (numbers self.now)).is_state k s.now) }
        requires rank { rank ≡ (meaning (numbers self.now)).rank k s.now }
        requires decision { d < (meaning (numbers self.now)).choices k }
        requires cells { length out.old ≡ (meaning (numbers self.now)).words }
        requires zeros { take zeros out.old ≡ replicate zeros (pos 0) }
        ensures allowed { is_some result ≡ (meaning (numbers self.now)).allowed k s.now d }
        ensures refused { IsNone result → out.new ≡ out.old }
        ensures row { IsSome result → out.new ≡ (meaning (numbers self.now)).step k s.now d }
        ensures extended { IfSome result (λ e. (e.gain ≡ (meaning (numbers self.now)).gain k s.now d)
            × (e.rank ≡ (meaning (numbers self.now)).rank (k + 1) ((meaning (numbers self.now)).step k s.now d))) }
    {
        if !self.allowed(k, s, d) {
            return None;
        }
        self.step(k, s, d, out);
        let gain = self.gain(k, s, d);
        let rank = self.rank(k + 1, out);
        Some(Extended { gain, rank })
    }

    /// The hash of `next`, the state of layer `k + 1` that decision `d` leads to. The caller passes the hash of `s`, so that a
    /// problem can answer without reading whole rows.
    fn next_hash(&self, k: usize, s: &[i64], hash: u64, d: u32, next: &[i64]) -> u64
        requires state { IsTrue ((meaning (numbers self.now)).is_state k s.now) }
        requires hash { hash ≡ (meaning (numbers self.now)).hash k s.now }
        requires allowed { IsAllowed (meaning (numbers self.now)) k s.now d }
        requires next { next.now ≡ (meaning (numbers self.now)).step k s.now d }
        ensures { result ≡ (meaning (numbers self.now)).hash (k + 1) next.now }
    {
        self.hash(k + 1, next)
    }

    /// The rough bound of `s`, whose rank the caller passes.
    fn rough_by_rank(&self, k: usize, s: &[i64], rank: i64) -> Option<i64>
        requires state { IsStateOf (meaning (numbers self.now)) k s.now }
        requires rank { rank ≡ (meaning (numbers self.now)).rank k s.now }
        ensures { result ≡ (meaning (numbers self.now)).rough k s.now }
    {
        self.rough(k, s)
    }

    /// A number of first cells that are zero in every state of layer `k`. Two states of the layer are equal exactly if their
    /// other cells are equal, so only the others are compared, folded and copied. `k` is at most `vars`.
    fn first_live(&self, k: usize) -> usize
        requires { k ≤ (meaning (numbers self.now)).vars }
        ensures cells { result ≤ (meaning (numbers self.now)).words }
        ensures zeros { (s : List ℤ) → IsStateOf (meaning (numbers self.now)) k s → take result s ≡ replicate result (pos 0) }
    {
        0
    }

    /// The next decision to try, from `from` up. No decision from `from` up to the answer is allowed; the answer itself need not
    /// be allowed. The answer is `choices(k)` if no decision is left.
    ///
    /// A problem with many choices, few of which are allowed in most states, steps over the others here, as from one member of a
    /// set to the next. Then `extend` is called for fewer decisions.
    fn next_choice(&self, k: usize, s: &[i64], from: u32) -> u32
        requires layer { k < (meaning (numbers self.now)).vars }
        requires state { IsTrue ((meaning (numbers self.now)).is_state k s.now) }
        requires from { from ≤ (meaning (numbers self.now)).choices k }
        ensures on { from ≤ result }
        ensures within { result ≤ (meaning (numbers self.now)).choices k }
        ensures skipped { (d : ℕ) → from ≤ d → d < result → (meaning (numbers self.now)).allowed k s.now d ≡ false }
    {
        from
    }

    /// Whether the order in which states of a layer are merged makes no difference. If so, a layer without exact nodes that is merged
    /// to the width sorts only the nodes that stay. `false` is always right.
    fn merges_in_any_order(&self) -> bool
        ensures { IsTrue result → MergesInAnyOrder (meaning (numbers self.now)) }
    {
        false
    }

    /// The program of every instance meets the six laws.
    ghost lawful: { (m : Self) → IsLawful (meaning (numbers m)) };

    /// The gaps of every program add up along a chain of states.
    ghost chained: { (m : Self) → IsChained (meaning (numbers m)) };
}
