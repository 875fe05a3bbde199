//! The laws of the kernel's blocks, of what a call replaced, and of the configuration. Each function does
//! nothing: what it says is proved of the definitions.

ghost use Rattle.osc_blocks.specs.AllBlocks.{StepsKeepBlocks, RunsKeepBlocks};
ghost use Rattle.osc_blocks.specs.Replacing.{StepsKeepReplaced, RunsKeepReplaced};
ghost use Rattle.osc_blocks.specs.Configs.{StepsKeepConfig, RunsKeepConfig};

/// In every run on the heap with shadows the heap of each process that has not ended is one, and each of
/// its objects that wait holds its block.
pub fn blocks_stand()
    ensures steps { StepsKeepBlocks }
    ensures runs { RunsKeepBlocks }
{}

/// In every run a call that gives nothing back when it returns has replaced no object.
pub fn replaced_flush()
    ensures steps { StepsKeepReplaced }
    ensures runs { RunsKeepReplaced }
{}

/// In every run the configuration is the one that the machine opened with.
pub fn configs_stay()
    ensures steps { StepsKeepConfig }
    ensures runs { RunsKeepConfig }
{}
