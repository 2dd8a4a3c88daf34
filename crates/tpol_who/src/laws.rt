//! The law of what `who` tells.

ghost use Rattle.std.specs.Prelude.{◌≡◌};
ghost use Rattle.tpol_prepare.specs.declared.scenario.StagedScene.{StagedScene as OneScene};
ghost use Rattle.tpol_prepare.specs.Manner.{way_of};
ghost use Rattle.tpol_prepare.specs.declared.manner.Way.TheVariants.{Sighted};
ghost use Rattle.tpol_who.specs.Begins.{AreBeginsTold};
ghost use Rattle.tpol_who.specs.Who.{scene_told};

/// Of each run that a script begins, in a scene whose runs see the machine and are given no tickets (`Way::Sighted`):
/// `can` stands exactly where nothing stands in the way of a path, the first `can` is that of the path that the run
/// begins on, and there is none exactly where it begins on none.
pub fn runs_are_told()
    ensures { (staged : OneScene) → way_of staged.scenario.manner ≡ Sighted
        → AreBeginsTold staged (scene_told staged) }
{}
