//! The bare space: a problem's tree and one node of it.
#![tactic(auto)]

ghost use Rattle.std.specs.Prelude.{◌≡◌, ℕ, ◌≤◌, min, Bool, List, Ok};
ghost use Rattle.std.proofs.Props.{props};
ghost use Rattle.propagation.specs.Closing.{closure};
ghost use Rattle.problems.specs.Problems.{LeavesSolve, Priced};
ghost use Rattle.space.specs.Meaning.{status_now, moved};
ghost use Rattle.bare.specs.Bares.{Agrees, agrees_prop, bare_meaning, choice_answer, limit, padded};
ghost use Rattle.bare.specs.Steps;

use nodes::node::Node;
use problems::{Problem, child_within, root};
use space::refusal::Refusal;
use space::{LIMIT, Loadable, Space};
use trees::Status;

/// A problem's tree and the node where a search stands in it. It holds no nodes to go back to but the root.
#[derive(Drop)]
pub struct Bare<P: Problem> {
    problem: P,
    root: Node,
    current: Node,
    // the status of the current node, while that is known to be a closed one
    known: Option<Status>,
    allowance: u64,
    ghost agrees: { Agrees (P.Constraints.network problem) (bare_meaning (P.Constraints.network problem) (P.Problem.start problem) (P.Problem.bound problem) (P.Problem.cost problem) current.words allowance) P.Problem.less root.words known } by { agrees_prop P.Problem.costs _ _ _ _ _ },
}

impl<P: Problem> Bare<P> {
    /// A space at the root of a problem's tree; an allowance above 1,000,000,000,000 counts as that.
    /// The solved leaves of the tree are the problem's solutions, each at just one leaf.
    pub fn new(problem: P, allowance: u64) -> Bare<P>
        ensures means { ⟦<Bare<P> as Space>⟧.meaning result ≡ bare_meaning (P.Constraints.network problem) (P.Problem.start problem) (P.Problem.bound problem) (P.Problem.cost problem) (closure (P.Constraints.network problem) (P.Problem.start problem)) (min allowance limit) }
        ensures leaves { LeavesSolve (P.Constraints.network problem) (P.Problem.start problem) (P.Problem.bound problem) }
        ensures priced { Priced (P.Constraints.network problem).width (P.Problem.bound problem) (P.Problem.cost problem) P.Problem.less }
    {
        let root = root(&problem);
        let known = Some(root.status(problem.width()));
        Bare {
            problem,
            root,
            current: root,
            known,
            allowance: allowance.min(LIMIT),
        }
    }

    /// The choice of the current node, if it is a choice node and the alternative one of its two; 12 or 13.
    fn choice(&self, alternative: u8) -> Result<(u8, u8), Refusal>
        ensures { result ≡ choice_answer (status_now (⟦<Bare<P> as Space>⟧.meaning self.now)) alternative }
    {
        let Status::Choice(choice) = self.status() else {
            return Err(Refusal::NotChoice);
        };
        if alternative > 1 {
            return Err(Refusal::Alternative);
        }
        Ok(choice)
    }

    /// Steps to the child at the choice of the current node.
    fn step(&mut self, choice: (u8, u8), alternative: u8)
        requires { Ok choice ≡ choice_answer (status_now (⟦<Bare<P> as Space>⟧.meaning self.old)) alternative }
        ensures { ⟦<Bare<P> as Space>⟧.meaning self.new ≡ moved (⟦<Bare<P> as Space>⟧.meaning self.old) alternative }
    {
        let closed = self.known.is_some();
        self.current = child_within(&self.problem, self.current, choice, alternative, closed);
        self.known = Some(self.current.status(self.problem.width()));
    }
}

impl<P: Problem> Space for Bare<P> {
    type Cost = P::Cost;

    ghost Place = { List ℕ };

    ghost places = { Prim.hlevel props };

    ghost meaning = { λ s. bare_meaning (P.Constraints.network s.problem) (P.Problem.start s.problem) (P.Problem.bound s.problem) (P.Problem.cost s.problem) s.current.words s.allowance };

    ghost less = { P.Problem.less };

    ghost named = { padded };

    ghost lawful = { λ s. Steps.lawful (P.Constraints.network s.problem) (P.Problem.start s.problem) (P.Problem.bound s.problem) (P.Problem.cost s.problem) s.root.words s.current.words s.allowance s.known s.agrees };

    fn status(&self) -> Status {
        self.known
            .unwrap_or_else(|| self.current.status(self.problem.width()))
    }

    fn bound(&self) -> Result<P::Cost, Refusal> {
        self.problem.bound(&self.current).ok_or(Refusal::Bound)
    }

    fn less(a: P::Cost, b: P::Cost) -> bool {
        P::less(a, b)
    }

    fn word(&self, i: u8) -> Result<u32, Refusal> {
        if (i as usize) < self.problem.width() {
            Ok(self.current.words[i as usize])
        } else {
            Err(Refusal::Word)
        }
    }

    fn width(&self) -> u8 {
        self.problem.width() as u8
    }

    // not shared with another space without layers: only the numbers are alike
    fn capacity(&self) -> u8 {
        0
    }

    fn allowance(&self) -> u64 {
        self.allowance
    }

    fn layer(&self) -> u8 {
        0
    }

    fn held(&self) -> u8 {
        0
    }

    fn commit(&mut self, alternative: u8) -> Result<(), Refusal> {
        let choice = self.choice(alternative)?;
        if self.allowance == 0 {
            return Err(Refusal::Allowance(0));
        }
        self.step(choice, alternative);
        self.allowance -= 1;
        Ok(())
    }

    fn redo(&mut self, alternative: u8) -> Result<(), Refusal> {
        let choice = self.choice(alternative)?;
        self.step(choice, alternative);
        Ok(())
    }

    fn mark(&mut self) -> Result<(), Refusal> {
        Err(Refusal::Capacity(0))
    }

    fn restore(&mut self) -> Result<(), Refusal> {
        Err(Refusal::NothingHeld)
    }

    fn forget(&mut self) -> Result<(), Refusal> {
        Err(Refusal::NothingHeld)
    }

    fn reset(&mut self) {
        self.current = self.root;
        self.known = Some(self.root.status(self.problem.width()));
    }
}

impl<P: Problem> Loadable for Bare<P> {
    ghost only = { λ s. Steps.named _ _ _ (P.Problem.cost s.problem) _ _ _ _ s.agrees };

    fn set(&mut self, i: u8, word: u32) -> Result<(), Refusal> {
        if (i as usize) >= self.problem.width() {
            return Err(Refusal::Word);
        }
        self.current.words[i as usize] = word;
        self.known = None;
        Ok(())
    }
}
