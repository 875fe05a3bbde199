//! The laws of frames in use. Each function does nothing: what it says is proved of the definitions.

ghost use Rattle.osc_counted.specs.Images.{StepsKeepImages, RunsFitImages};
ghost use Rattle.osc_counted.specs.Regions.{StepsKeepRegions, RunsTellRegions, RegionsAreCounted};
ghost use Rattle.osc_counted.specs.Told.{PrivateAreCounted, UnusedAreFree, RunsTellUnused};

/// At every moment of a run each process that has not ended has a frame of its own for each page of the
/// image and of its stack. Each step of the kernel keeps that.
pub fn images_fit()
    ensures steps { StepsKeepImages }
    ensures runs { RunsFitImages }
{}

/// At every moment of a run the frames of shared regions are those that the journal tells: each was given by
/// one share, and a process that has not ended maps it exactly where its ledger holds that share's region.
/// While no call is committed they are as many as the journal tells, each region counted once.
pub fn regions_are_told()
    ensures steps { StepsKeepRegions }
    ensures runs { RunsTellRegions }
    ensures counted { RegionsAreCounted }
{}

/// While no call is committed, and where each process has as many tables as its ledger tells, the frames that
/// a process has alone are as many as its ledger tells, and the frames that the journal tells as unused are
/// the free ones. So it is in every run.
pub fn frames_are_told()
    ensures private { PrivateAreCounted }
    ensures unused { UnusedAreFree }
    ensures runs { RunsTellUnused }
{}
