// A machine over a frame map and a stack memory. Clauses see it by `view_of`: no `impl Model` can, since a Value has a code, and what a map's rows mean is a function, which has none.
ghost use Rattle.std.specs.Prelude.{◌≡◌, MatchResult, ◌≢◌};
ghost use Rattle.frames.specs.declared.state.Phase.TheVariants.{Running};
ghost use Rattle.refusal.specs.declared.Refusal.TheVariants.{WrongPhase};

use frames::State;
use refusal::Refusal;

#[derive(Drop)]
pub struct Machine<M, S> {
    pub(crate) map: M,
    pub(crate) memory: S,
    pub(crate) state: State,
}

impl<M, S> Machine<M, S> {
    // Refuses a call where the script does not run.
    pub(crate) fn running(&self) -> Result<(), Refusal>
        ensures { MatchResult result (λ _. self.now.state.phase ≡ Running) (λ e. (e ≡ WrongPhase) × (self.now.state.phase ≢ Running)) }
    {
        if !self.state.is_running() {
            return Err(Refusal::WrongPhase);
        }
        Ok(())
    }
}
