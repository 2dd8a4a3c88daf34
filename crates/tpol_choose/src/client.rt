ghost use Rattle.std.specs.Option.{ForSome};
ghost use Rattle.std.specs.Prelude.{◌≡◌, IfSome, Option};
ghost use Rattle.tpm_pcr.specs.Pcrs.{selection_digest};
ghost use Rattle.tpol_choose.specs.Hashes.{IsCpHash, IsNameHash};
ghost use Rattle.tpol_choose.specs.Selections.{IsSelected};
ghost use Rattle.tpol_name.specs.Setups.{IsSight};

use tpm_bindings::Bindings;
use tpm_pcr::digest_of_selection;
use tpol_base::Digest32;
use tpol_goal::{Goal, Grants};
use tpol_name::Sight;

// Who wants to go a path: what it sees of the machine, what it may use, what it wants, and the locality that it
// sends from; with what is kept so that it is not made again for each way that goes on from here: the digest of the
// PCRs that the moves which come next ask for, and the hashes of the goal's command.
#[derive(Clone, Copy)]
pub struct Client<'a> {
    pub sight: &'a Sight,
    pub grants: &'a Grants,
    pub goal: &'a Goal,
    pub locality: u8,
    pub selected: Option<Selected>,
    pub cp_hash: Option<Digest32>,
    pub name_hash: Option<Digest32>,
    pub ghost is_selected: { ForSome selected (IsSelected sight.now) },
    pub ghost cp_hashed: { ForSome cp_hash (IsCpHash sight.now goal.now) },
    pub ghost name_hashed: { ForSome name_hash (IsNameHash sight.now goal.now) },
}

impl<'a> Client<'a> {
    ghost use Rattle.tpol_choose.specs.Blocks.{client_of};
    ghost use Rattle.tpol_choose.specs.Lent.{client_of_lent};

    // The digest of the PCRs of a selection, bit n for PCR n.
    pub fn digest_of_selection(&self, mask: u32) -> Digest32
        requires sight { IsSight self.now.sight.now }
        ensures { result ≡ selection_digest self.now.sight.now.pcrs mask }
    {
        match self.selected {
            Some(selected) if selected.mask == mask => selected.digest,
            _ => digest_of_selection(self.sight.pcrs.as_slice(), mask),
        }
    }

    // A client that wants the same, without anything that is kept.
    pub fn new(sight: &'a Sight, grants: &'a Grants, goal: &'a Goal, locality: u8) -> Client<'a>
        ensures { client_of_lent result ≡ client_of sight.now grants.now goal.now locality }
    {
        Client {
            sight,
            grants,
            goal,
            locality,
            selected: None,
            cp_hash: None,
            name_hash: None,
        }
    }

    // The same before ways that go on from a session that these facts bind, the first of which begins by asking
    // for this selection, if it is one: with the digest of its PCRs, and the hashes that all of them ask for; `None`
    // where this one keeps all of that already.
    pub fn keeping(&self, mask: Option<u32>, bindings: &Bindings) -> Option<Client<'a>>
        requires sight { IsSight self.now.sight.now }
        ensures { IfSome result (λ client. client_of_lent client ≡ client_of_lent self.now) }
    {
        if self.keeps(mask, bindings) {
            return None;
        }
        Some(Client {
            sight: self.sight,
            grants: self.grants,
            goal: self.goal,
            locality: self.locality,
            selected: self.selected_with(mask),
            cp_hash: self.kept_cp_hash(bindings),
            name_hash: self.kept_name_hash(bindings),
        })
    }

    // The one that keeps more, where there is one, or else this one.
    pub fn or_kept<'c>(&'c self, kept: &'c Option<Client<'a>>) -> &'c Client<'a>
        requires kept { IfSome kept.now (λ client.
            client_of_lent client ≡ client_of_lent self.now) }
        ensures { client_of_lent result.now ≡ client_of_lent self.now }
    {
        match kept {
            Some(client) => client,
            None => self,
        }
    }

    // Whether this selection, if it is one, and the hashes that the facts bind are kept already.
    fn keeps(&self, mask: Option<u32>, bindings: &Bindings) -> bool {
        self.keeps_selection(mask)
            && (self.cp_hash.is_some() || !bindings.sets_cp_hash())
            && (self.name_hash.is_some() || !bindings.sets_name_hash())
    }

    fn keeps_selection(&self, mask: Option<u32>) -> bool {
        match (mask, self.selected) {
            (None, _) => true,
            (Some(mask), Some(selected)) => selected.mask == mask,
            (Some(_), None) => false,
        }
    }

    // The selection that is kept then.
    fn selected_with(&self, mask: Option<u32>) -> Option<Selected>
        requires sight { IsSight self.now.sight.now }
        ensures { ForSome result (IsSelected self.now.sight.now) }
    {
        match mask {
            None => self.selected,
            Some(mask) => Some(Selected {
                mask,
                digest: self.digest_of_selection(mask),
            }),
        }
    }
}

// A selection of PCRs, with the digest of these PCRs.
#[derive(Clone, Copy)]
pub struct Selected {
    pub mask: u32,
    pub digest: Digest32,
}
