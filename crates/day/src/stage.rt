// The stages of a day that is not over.
ghost use Rattle.std.proofs.Common.{refl, inl, inr};
ghost use Rattle.journal.specs.Figures as journal;
ghost use Rattle.journal.specs.Lawful.{Early};

// A stage, by its name in the journal; the day is not metered yet.
pub trait Stage {
    ghost stage: { journal.Stage };

    ghost early: { Early stage };
}

// The day takes parties.
#[derive(Clone, Copy)]
pub struct Planned;

// The day takes bids and activations.
#[derive(Clone, Copy)]
pub struct Running;

impl Stage for Planned {
    ghost stage = { journal.Planned };

    ghost early = { inl refl };
}

impl Stage for Running {
    ghost stage = { journal.Running };

    ghost early = { inr refl };
}
