ghost use Rattle.trace_spec.specs.Copied.{GenerationSpares, SameGeneration};

/// A generation that comes to a trace comes to it without the folders that have no file among those looked at.
pub fn generation_spares()
    ensures { GenerationSpares }
{}

/// The trace of a copy of the files of a generation's footprint is the trace of the tree.
pub fn same_generation()
    ensures { SameGeneration }
{}
