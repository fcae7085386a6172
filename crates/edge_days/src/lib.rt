// The days at the edge, settled by the definitions alone.
#![tactic(auto)]

ghost use Rattle.edge_days.specs.EdgeDays.{EdgeDays};
ghost use Rattle.edge_days.specs.Files.{FileDays};

// The days at the edge are what docs/UPLIFT.md says of them, and as files they print what it says. It does nothing: its
// contract asks for the proof.
#[tactic(auto, using(crate::proofs::Stand::edge_days, crate::proofs::Prints::file_days))]
pub fn edge_days_stand()
    ensures days { EdgeDays }
    ensures files { FileDays }
{}
