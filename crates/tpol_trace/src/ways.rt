// The ways behind a place in a policy, and which of them facts went.

ghost use Rattle.std.specs.Prelude.{◌≤◌, length};

use crate::asked::Asked;
use crate::window::Window;
use std::alloc::Global;
use tpol_base::NoMemory;

// A policy that is walked has no more ways.
const MOST: u32 = 65_536;

// For each number of facts that went before, the first of some ways whose moves are all the facts after
// them, by its place from 0. Outside of the window there is none. All is counted no further than 65,536.
#[derive(Drop)]
pub struct Ways {
    pub first: Vec<Option<u32>>,
    pub count: u32,
    pub window: Window,
    pub ghost inside: { window.to ≤ length first.items },
}

impl Ways {
    ghost use Rattle.std.specs.Prelude.{◌≡◌, ◌+◌, ◌<◌, ◌++◌, ◌∷◌, [], map, List, ℕ, Some, IfOk};
    ghost use Rattle.tpol_digest.specs.Paths.{empty_path, followed_by, path_of_move};
    ghost use Rattle.tpol_trace.specs.Tables.{AllAsk, AreInside, Asks, IsEverywhere, IsTable, kept};
    ghost use Rattle.tpol_trace.specs.Same.{is_same_move};
    ghost use Rattle.tpol_trace.specs.Windows.{IsIn};
    ghost use Rattle.tpol_tree.specs.declared.path.ApprovedDoc.{ApprovedDoc};
    ghost use Rattle.tpol_tree.specs.declared.path.Move.{Move};
    ghost use Rattle.tpol_tree.specs.declared.path.Path.{Path};

    // No way.
    pub fn none(alloc: Global, facts: &[Asked]) -> Result<Ways, NoMemory>
        ensures size { IfOk result (λ table. length table.first.items ≡ length facts.now + 1) }
        ensures none { IfOk result
            (λ table. (approvals : List ApprovedDoc) (level : ℕ) (moves : List Move)
            → AllAsk facts.now moves → IsTable approvals level moves table []) }
    {
        Ways::all_at(alloc, facts, None, 0)
    }

    // So many ways, of which this is the first wherever they begin.
    pub fn all_at(
        alloc: Global,
        facts: &[Asked],
        first: Option<u32>,
        count: u32,
    ) -> Result<Ways, NoMemory>
        ensures { IfOk result (λ table. IsEverywhere table (length facts.now) first count) }
    {
        let size = facts.len() + 1;
        Ok(Ways {
            first: Vec::from_elem(alloc, first, size)?,
            count,
            window: Ways::window_of(first, size),
        })
    }

    // Where ways begin if this is the first of them at each of so many places.
    fn window_of(first: Option<u32>, size: usize) -> Window
        ensures places { (k way : ℕ) → first ≡ Some way → k < size → IsIn result k }
        ensures end { result.to ≤ size }
    {
        match first {
            None => Window::NONE,
            Some(_) => Window { from: 0, to: size },
        }
    }

    // The same ways once more.
    pub fn copy(&self) -> Result<Ways, NoMemory>
        ensures { IfOk result (λ copy. (copy.first.items ≡ self.now.first.items)
            × (copy.count ≡ self.now.count) × (copy.window ≡ self.now.window)) }
    {
        Ok(Ways {
            first: self.first.clone()?,
            count: self.count,
            window: self.window,
        })
    }

    // The way without a move.
    pub fn end(alloc: Global, facts: &[Asked]) -> Result<Ways, NoMemory>
        ensures size { IfOk result (λ table. length table.first.items ≡ length facts.now + 1) }
        ensures end { IfOk result
            (λ table. (approvals : List ApprovedDoc) (level : ℕ) (moves : List Move)
            → AllAsk facts.now moves → IsTable approvals level moves table (empty_path ∷ [])) }
    {
        let mut ways = Ways::all_at(alloc, facts, None, 1)?;
        let last = facts.len();
        ways.first[last] = Some(0);
        ways.window = Window {
            from: last,
            to: last + 1,
        };
        Ok(ways)
    }

    // The same ways, each behind a move: one that goes the facts behind the next goes on from it where the
    // next fact is that move, and is left where it differs.
    pub fn put_behind(&mut self, facts: &[Asked], act: &Asked)
        requires { length self.old.first.items ≡ length facts.now + 1 }
        ensures size { length self.new.first.items ≡ length self.old.first.items }
        ensures behind { (approvals : List ApprovedDoc) (level : ℕ) (moves : List Move) (one : Move)
            (ways : List Path)
            → AllAsk facts.now moves → Asks act.now one → AreInside ways
            → IsTable approvals level moves self.old ways
            → IsTable approvals level moves self.new (map (followed_by (path_of_move one)) ways) }
    {
        let window = self.window.lower();
        for k in window.from..window.to {
            self.first[k] = Ways::go_on(self.first[k + 1], act, &facts[k]);
        }
        self.first[window.to] = None;
        self.window = window.trimmed(&self.first);
    }

    // These ways and then others.
    pub fn append(&mut self, others: &Ways)
        requires { length self.old.first.items ≡ length others.now.first.items }
        ensures size { length self.new.first.items ≡ length self.old.first.items }
        ensures both { (approvals : List ApprovedDoc) (level : ℕ) (moves : List Move)
            (ways more : List Path)
            → IsTable approvals level moves self.old ways
            → IsTable approvals level moves others.now more
            → IsTable approvals level moves self.new (ways ++ more) }
    {
        for k in others.window.from..others.window.to {
            if self.first[k].is_none() {
                self.first[k] = match others.first[k] {
                    None => None,
                    Some(way) => Some(self.count.saturating_add(way).min(MOST)),
                };
            }
        }
        self.count = self.count.saturating_add(others.count).min(MOST);
        self.window = self.window.around(others.window);
    }

    // The way that goes the facts behind this one, where this one is the move; it is left where they differ.
    fn go_on(way: Option<u32>, act: &Asked, fact: &Asked) -> Option<u32>
        ensures { (one other : Move) → Asks act.now one → Asks fact.now other
            → result ≡ kept (is_same_move one other) way }
    {
        match way {
            Some(_) if act.is_same(fact) => way,
            _ => None,
        }
    }
}
