//! What is true of the deliveries that a gate tells: each function proves one law, by its contract, and does nothing
//! when it runs.
ghost use Rattle.gate_core.specs.ReadBack.{EachLineReadsBack};

/// Each line by which an accepted delivery is told, without its LF, reads back as this delivery under its id.
pub fn each_line_reads_back()
    ensures { EachLineReadsBack }
{}
