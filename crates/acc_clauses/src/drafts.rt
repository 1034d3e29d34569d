//! What was judged so far of a directive.

ghost use Rattle.std.specs.Prelude.{List, [], ◌∷◌, ◌++◌, ◌≡◌, ◌<◌, ◌≤◌, length, true};
ghost use Rattle.acc_clauses.specs.Words.{Counters, Found};
ghost use Rattle.acc_clauses.specs.Overlays.{IsDraft, births_of, lens_of, ended_of, with_aim, found_over, counters_over, dids_in};
ghost use Rattle.acc_clauses.specs.Acts.{pointers_in};
ghost use Rattle.acc_clauses.specs.Spans.{AreSpans};
ghost use Rattle.acc_clauses.specs.declared.acted.Acted.{Acted};

use crate::acted::Acted;
use crate::outlines::Outline;
use crate::pointers::pointers_of;
use crate::recent::Recent;
use crate::slates::Slate;
use crate::spans::add_birth;
use acc_base::{Aim, Section, Step};
use acc_present::Place;
use std::marker::Model;

/// The tasks of a directive that were judged so far, in the order in which they act, each with what it does.
#[derive(Drop)]
pub(crate) struct Draft {
    acts: Slate<Acted>,
    // Where the range stood that each of them changes, when it was judged: it is looked at, and not trusted.
    places: [Place; 64],
    // Where the ranges may stand that tasks of this and of earlier directives named.
    recent: Recent,
    // The lengths of the blocks that they give birth to.
    lens: Slate<u64>,
    // The addresses that those take.
    spans: Slate<(u64, u64)>,
    // The blocks whose mappings they end.
    ended: Slate<u64>,
    // How many attachment counters more they take.
    pointers: u64,
    // What look-ups see of them at a glance.
    outline: Outline,
}

impl Model for Draft {
    ghost use Rattle.std.specs.Prelude.{List, ◌≡◌, ◌≤◌, length};
    ghost use Rattle.acc_clauses.specs.declared.acted.Acted.{Acted};
    ghost use Rattle.acc_clauses.specs.Overlays.{IsDraft, dids_in};
    ghost use Rattle.acc_clauses.specs.Outlined.{IsOutlined};
    ghost use Rattle.acc_clauses.specs.Acts.{pointers_in};

    ghost Value = { List Acted };

    ghost view = { λ d. d.acts };

    ghost invariant = { λ d. IsDraft d.acts d.lens d.spans d.ended × IsOutlined d.acts d.outline × (d.pointers ≡ pointers_in (dids_in d.acts)) };
}

// Notes the birth or the end that the task makes, after these tasks.
#[tactic(auto, using(crate::proofs::Drafted::tally_laws))]
#[inline(always)]
fn tally(
    lens: &mut Slate<u64>,
    spans: &mut Slate<(u64, u64)>,
    ended: &mut Slate<u64>,
    x: Acted,
    acts: &[Acted],
)
    requires draft { IsDraft acts.now lens.old spans.old ended.old }
    requires few { length acts.now < 64 }
    ensures { IsDraft (acts.now ++ x ∷ []) lens.new spans.new ended.new }
{
    match x.did.step {
        Step::Born { place, .. } => {
            let len = x.task.section().len;
            lens.push(len);
            add_birth(spans, (place, len));
        }
        Step::Dropped { block, ended: over } => {
            if over {
                ended.push(block);
            }
        }
        Step::Nothing => {}
        Step::Counted { .. } => {}
        Step::Moved { .. } => {}
    }
}

/// Where the range may stand after a step, by where it or the one before it stood.
#[inline(always)]
fn place_left(step: Step, place: Place) -> Place {
    match step {
        Step::Born { .. } => place.behind(),
        _ => place,
    }
}

impl Draft {
    /// Nothing was judged.
    pub(crate) fn new() -> Self
        ensures { result ≡ [] }
    {
        Draft {
            acts: Slate::new(),
            places: [Place::default(); 64],
            recent: Recent::new(),
            lens: Slate::new(),
            spans: Slate::new(),
            ended: Slate::new(),
            pointers: 0,
            outline: Outline::new(),
        }
    }

    /// What was judged is forgotten. The places stay, for the directives that follow.
    pub(crate) fn clear(&mut self)
        ensures { self.new ≡ [] }
    {
        self.acts.clear();
        self.lens.clear();
        self.spans.clear();
        self.ended.clear();
        self.pointers = 0;
        self.outline = Outline::new();
    }

    /// One more task was judged. The range that it changes may stand at the place, or where it maps one, right behind it.
    #[tactic(auto, using(crate::proofs::Drafted::pointer_laws))]
    #[inline(always)]
    pub(crate) fn push(&mut self, x: Acted, place: Place)
        requires { length self.old < 64 }
        ensures { self.new ≡ self.old ++ x ∷ [] }
    {
        self.places[self.acts.as_slice().len()] = place;
        self.recent
            .note(x.task.section().start, place_left(x.did.step, place));
        tally(
            &mut self.lens,
            &mut self.spans,
            &mut self.ended,
            x,
            self.acts.as_slice(),
        );
        self.pointers += pointers_of(x.did.aim);
        self.outline.add(&x);
        self.acts.push(x);
    }

    /// This became of the pointer of the task that was judged last.
    #[tactic(auto, using(crate::proofs::Drafted::pointer_laws))]
    pub(crate) fn aim(&mut self, aim: Aim)
        ensures { (xs : List Acted) (x : Acted) → self.old ≡ xs ++ x ∷ [] → self.new ≡ xs ++ with_aim aim x ∷ [] }
    {
        if let Some(mut x) = self.acts.pop() {
            self.pointers = self.pointers - pointers_of(x.did.aim) + pointers_of(aim);
            x.did.aim = aim;
            self.acts.push(x);
        }
    }

    /// The tasks, each with what it does.
    pub(crate) fn acts(&self) -> &[Acted]
        ensures value { result.now ≡ self.now }
        ensures few { length result.now ≤ 64 }
    {
        self.acts.as_slice()
    }

    /// Where the range may stand that each of them changes.
    pub(crate) fn places(&self) -> &[Place; 64] {
        &self.places
    }

    /// Where the range may stand in which a section lies that begins at an address.
    #[inline(always)]
    pub(crate) fn near(&self, start: u64) -> Place {
        self.recent.near(start)
    }

    /// The lengths of the blocks that they give birth to, one after the other.
    pub(crate) fn lens(&self) -> &[u64]
        ensures value { result.now ≡ lens_of (births_of self.now) }
        ensures count { length result.now ≡ length (births_of self.now) }
        ensures few { length result.now ≤ 64 }
    {
        self.lens.as_slice()
    }

    /// The addresses that those take: the place and the length of each span.
    pub(crate) fn spans(&self) -> &[(u64, u64)]
        ensures { AreSpans (births_of self.now) result.now }
    {
        self.spans.as_slice()
    }

    /// The blocks whose mappings they end.
    pub(crate) fn ended(&self) -> &[u64]
        ensures { result.now ≡ ended_of self.now }
    {
        self.ended.as_slice()
    }

    /// How many attachment counters more they take.
    pub(crate) fn pointers(&self) -> u64
        ensures { result ≡ pointers_in (dids_in self.now) }
    {
        self.pointers
    }

    /// Whether none of the tasks maps an address of a section, which is not empty.
    #[inline]
    pub(crate) fn is_clear_of(&self, section: Section) -> bool
        ensures { result ≡ true → (found : Found) → found_over section found self.now ≡ found }
    {
        self.outline.is_clear_of(section)
    }

    /// Whether none of the tasks changes a counter of a block.
    #[inline]
    pub(crate) fn is_without(&self, block: u64) -> bool
        ensures { result ≡ true → (counters : Counters) → counters_over block counters self.now ≡ counters }
    {
        self.outline.is_without(block)
    }
}
