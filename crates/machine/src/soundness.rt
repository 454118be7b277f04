// The theorems that stand above the definitions.
ghost use Rattle.machine.specs.Soundness.{StaysSound};
ghost use Rattle.machine.specs.Moves.{EveryCallMoves};
ghost use Rattle.machine.specs.Refusing.{RefusedKeeps};
ghost use Rattle.machine.specs.Examples.{PublishedExamples};

// Every room stays sound, whatever calls are made of it; each call is one of a few moves; a refused one changes nothing
// but tallies, and an opening what it has formatted; the published examples hold.
pub fn stays_sound()
    ensures sound { StaysSound }
    ensures moves { EveryCallMoves }
    ensures refused { RefusedKeeps }
    ensures examples { PublishedExamples }
{}
