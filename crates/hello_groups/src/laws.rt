// A function here stands for the theorem in its contract, and does nothing.
ghost use Rattle.hello_groups.specs.Laws.{GroupsAreLists};

#[tactic(auto, using(crate::proofs::Grouping::sym_in_groups, crate::proofs::Grouping::asym_in_groups))]
pub fn groups_are_lists()
    ensures { GroupsAreLists }
{}
