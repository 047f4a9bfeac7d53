// A correction sheet over the day's text (02, E2): rows with rising indices, nothing else. Its lines are C lines, or lines of the planners' sheet (02, E11).
#![tactic(auto)]

pub mod handed;
pub mod judged;
pub mod kind;
