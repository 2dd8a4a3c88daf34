ghost use Rattle.std.specs.Prelude.{◌≡◌, ℕ, List, [], ◌∷◌, ◌++◌, bit_and, fold, ◌&&◌, None};
ghost use Rattle.tpm_bindings.specs.Facts as spec;
ghost use Rattle.tpol_base.specs.Digest.{is_same_digest};
ghost use Rattle.tpm_bindings.specs.Merged.{merged, fact_of, least};
ghost use Rattle.tpm_bindings.specs.Held.{all_are, held, listed};
ghost use Rattle.tpm_bindings.specs.Agreement.{disagreement};
ghost use Rattle.tpol_base.specs.declared.digest.Digest32.{Digest32 as OneDigest};
ghost use Rattle.tpol_tree.specs.declared.facts.Fact.{Fact as OneFact};
ghost use Rattle.tpol_tree.specs.declared.path.Move.{Move as OneMove};
ghost use Rattle.tpol_tree.specs.declared.path.Move.TheVariants.{Assert};

use crate::deadline::is_before;
use crate::{Disagreement, Held, LastAuth, assertion};
use tpol_base::Digest32;
use tpol_tree::{Assertion, Move};

/// What the facts of a session bind together. It is merged of one fact after another and takes no memory;
/// the order of the facts counts for `last_auth` alone, and their events for nothing.
#[derive(Clone, Copy)]
pub struct Bindings {
    codes: Held<u32>,
    localities: u8,
    cp_hash: Held<Digest32>,
    limit: Held<Digest32>,
    name_hash: Held<Digest32>,
    parent_hash: Held<Digest32>,
    written: Held<bool>,
    deadline: Option<u64>,
    presence: bool,
    auth: LastAuth,
    pcr: bool,
}

impl Bindings {
    /// The bindings of no fact.
    pub fn new() -> Bindings
        ensures { result ≡ merged [] }
    {
        Bindings {
            codes: Held::Nothing,
            localities: u8::MAX,
            cp_hash: Held::Nothing,
            limit: Held::Nothing,
            name_hash: Held::Nothing,
            parent_hash: Held::Nothing,
            written: Held::Nothing,
            deadline: None,
            presence: false,
            auth: LastAuth::Neither,
            pcr: false,
        }
    }

    /// Adds what one more fact binds: its move, its cpHashA and its deadline in milliseconds.
    pub fn merge(&mut self, act: &Move, cp_hash: Option<Digest32>, deadline: Option<u64>)
        ensures { (facts : List OneFact) (event : ℕ) → self.old ≡ merged facts
            → self.new ≡ merged (facts ++ fact_of event act.now cp_hash deadline ∷ []) }
    {
        if let Move::Assert(assertion) = act {
            self.bind(assertion);
        }
        self.limit(cp_hash, deadline);
    }

    /// Adds what an assertion alone binds, without a cpHashA and without a deadline.
    pub fn bind(&mut self, assertion: &Assertion)
        ensures binds { (facts : List OneFact) → self.old ≡ merged facts
            → self.new ≡ merged (facts ++ fact_of 0 (Assert assertion.now) None None ∷ []) }
    {
        self.codes.add(assertion::code(assertion));
        self.localities = both(self.localities, assertion::localities(assertion));
        self.cp_hash.add(assertion::cp_hash(assertion));
        self.name_hash.add(assertion::name_hash(assertion));
        self.parent_hash.add(assertion::parent_hash(assertion));
        self.written.add(assertion::written(assertion));
        self.presence |= assertion::is_presence(assertion);
        self.auth = later(self.auth, assertion::auth(assertion));
        self.pcr |= assertion::is_pcr(assertion);
    }

    /// Adds the cpHashA and the deadline, in milliseconds, of the fact whose move was added last.
    pub fn limit(&mut self, cp_hash: Option<Digest32>, deadline: Option<u64>)
        ensures limits { (facts : List OneFact) (event : ℕ) (act : OneMove)
            → self.old ≡ merged (facts ++ fact_of event act None None ∷ [])
            → self.new ≡ merged (facts ++ fact_of event act cp_hash deadline ∷ []) }
    {
        self.limit.add(cp_hash);
        self.deadline = earlier(self.deadline, deadline);
    }

    /// Whether a command code is set, by PolicyCommandCode or PolicyDuplicationSelect.
    pub fn sets_code(&self) -> bool
        ensures { (facts : List OneFact) → self.now ≡ merged facts → result ≡ spec.sets_code facts }
    {
        self.codes.is_any()
    }

    /// Whether each command code that is set is this one.
    pub fn every_code(&self, code: u32) -> bool
        ensures { (facts : List OneFact) → self.now ≡ merged facts
            → result ≡ spec.every_code facts code }
    {
        self.codes.all_are(code)
    }

    /// The localities of 0 to 7 that each PolicyLocality allows, bit n for locality n.
    pub fn localities(&self) -> u8
        ensures { (facts : List OneFact) → self.now ≡ merged facts
            → result ≡ spec.common_localities (spec.moves_of facts) }
    {
        self.localities
    }

    /// Whether every PolicyLocality allows this locality: one of 0 to 7 that all sets have, and any at all where no
    /// set leaves one of them out.
    pub fn allows_locality(&self, locality: u8) -> bool
        ensures allows { (facts : List OneFact) → self.now ≡ merged facts
            → result ≡ spec.allows_locality facts locality }
    {
        self.localities == u8::MAX || locality < 8 && self.localities >> locality & 1 == 1
    }

    /// Whether a cpHash is set, by PolicyCpHash or by the cpHashA of PolicySecret, PolicySigned or PolicyTicket.
    pub fn sets_cp_hash(&self) -> bool
        ensures { (facts : List OneFact) → self.now ≡ merged facts
            → result ≡ spec.sets_cp_hash facts }
    {
        self.cp_hash.is_any() || self.limit.is_any()
    }

    /// Whether each cpHash that is set is this one.
    pub fn every_cp_hash(&self, digest: Digest32) -> bool
        ensures { (facts : List OneFact) → self.now ≡ merged facts
            → result ≡ spec.every_cp_hash facts digest }
    {
        both_are(self.cp_hash, self.limit, digest)
    }

    /// Whether a nameHash is set, by PolicyNameHash or PolicyDuplicationSelect.
    pub fn sets_name_hash(&self) -> bool
        ensures { (facts : List OneFact) → self.now ≡ merged facts
            → result ≡ spec.sets_name_hash facts }
    {
        self.name_hash.is_any() || self.parent_hash.is_any()
    }

    /// Whether each nameHash that is set is this one.
    pub fn every_name_hash(&self, digest: Digest32) -> bool
        ensures { (facts : List OneFact) → self.now ≡ merged facts
            → result ≡ spec.every_name_hash facts digest }
    {
        both_are(self.name_hash, self.parent_hash, digest)
    }

    /// Whether PolicyNvWritten asks for a state of the index.
    pub fn sets_written(&self) -> bool
        ensures { (facts : List OneFact) → self.now ≡ merged facts
            → result ≡ spec.sets_written facts }
    {
        self.written.is_any()
    }

    /// Whether each state that PolicyNvWritten asks for is this one.
    pub fn every_written(&self, written: bool) -> bool
        ensures { (facts : List OneFact) → self.now ≡ merged facts
            → result ≡ spec.every_written facts written }
    {
        self.written.all_are(written)
    }

    /// Whether the time, in milliseconds, is at most every deadline.
    pub fn is_in_time(&self, time: u64) -> bool
        ensures { (facts : List OneFact) → self.now ≡ merged facts
            → result ≡ spec.is_in_time facts time }
    {
        is_before(time, self.deadline)
    }

    /// Whether there is a PolicyPhysicalPresence.
    pub fn asks_presence(&self) -> bool
        ensures { (facts : List OneFact) → self.now ≡ merged facts
            → result ≡ spec.asks_presence facts }
    {
        self.presence
    }

    /// The last of what PolicyAuthValue and PolicyPassword ask for.
    pub fn last_auth(&self) -> LastAuth
        ensures { (facts : List OneFact) → self.now ≡ merged facts → result ≡ spec.last_auth facts }
    {
        self.auth
    }

    /// Whether there is a PolicyPCR.
    pub fn has_pcr(&self) -> bool
        ensures { (facts : List OneFact) → self.now ≡ merged facts → result ≡ spec.has_pcr facts }
    {
        self.pcr
    }

    /// Why a session can never hold these facts together: the first rule that their moves break, and `None` exactly
    /// where these agree. Of cpHashA and deadlines no rule says anything.
    pub fn disagreement(&self) -> Option<Disagreement>
        ensures { (facts : List OneFact) → self.now ≡ merged facts
            → result ≡ disagreement (spec.moves_of facts) }
    {
        let both_kinds = self.cp_hash.is_any() && self.sets_name_hash();
        if !self.codes.is_one() {
            Some(Disagreement::Code)
        } else if self.localities == 0 {
            Some(Disagreement::Locality)
        } else if !self.cp_hash.is_one() {
            Some(Disagreement::CpHash)
        } else if !self.name_hash.is_one() {
            Some(Disagreement::NameHash)
        } else if both_kinds {
            Some(Disagreement::Kinds)
        } else if !self.written.is_one() {
            Some(Disagreement::NvWritten)
        } else {
            None
        }
    }

    /// The same of the facts with one more move: `None` exactly where it agrees with them.
    pub fn disagreement_with(&self, act: &Move) -> Option<Disagreement>
        ensures { (facts : List OneFact) → self.now ≡ merged facts
            → result ≡ disagreement (spec.moves_of facts ++ act.now ∷ []) }
    {
        let mut together = *self;
        together.merge(act, None, None);
        together.disagreement()
    }
}

// The localities that one more set allows too.
fn both(localities: u8, more: Option<u8>) -> u8
    ensures { result ≡ fold bit_and localities (listed more) }
{
    localities & more.unwrap_or(u8::MAX)
}

// The earliest deadline with one more, if there is one.
fn earlier(first: Option<u64>, second: Option<u64>) -> Option<u64>
    ensures { (deadlines : List ℕ) → first ≡ least deadlines
        → result ≡ least (deadlines ++ listed second) }
{
    match (first, second) {
        (Some(first), Some(second)) => Some(first.min(second)),
        (first, None) => first,
        (None, second) => second,
    }
}

// The later of two, where there is a later one.
fn later(before: LastAuth, auth: Option<LastAuth>) -> LastAuth
    ensures { result ≡ fold (λ before auth. auth) before (listed auth) }
{
    auth.unwrap_or(before)
}

// Whether each of the digests that two bindings hold is this one.
fn both_are(first: Held<Digest32>, second: Held<Digest32>, digest: Digest32) -> bool
    ensures { (xs ys : List OneDigest) → first ≡ held is_same_digest xs
        → second ≡ held is_same_digest ys
        → result ≡ (all_are is_same_digest digest xs && all_are is_same_digest digest ys) }
{
    first.all_are(digest) && second.all_are(digest)
}
