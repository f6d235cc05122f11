//! Laws of what a writer sends, each the contract of a function that does nothing.
ghost use Rattle.std.specs.Prelude.{◌≡◌, ◌∷◌, List};
ghost use Rattle.dataset_meta.specs.Metas.{MetaData};
ghost use Rattle.pubsub_model.specs.Frames.{published};
ghost use Rattle.pubsub_model.specs.Cadence.{Settings, WriterTurn, WriterDeed, HadTurn, HasRowsOf, cadence, frames_of};

/// What the frames of a writer publish up to a turn is the row of that turn, whatever came before, where the rows of the turns
/// between two refreshes are rows of one meta.
pub fn frames_publish_each_row()
    ensures { (meta : MetaData) (s : Settings) (turn : WriterTurn) (deeds : List WriterDeed)
        → HasRowsOf meta (HadTurn turn ∷ deeds)
        → published (frames_of (cadence s (HadTurn turn ∷ deeds))) ≡ turn.row }
{}
