// The repairs: links that would lead a painter round in circles are cut.
#![tactic(auto)]

use targets::name::Pass;

pub mod image;
pub mod images;
pub mod linked;
pub mod pass;
pub mod prepare;
pub mod whole;

// The passes that look for links that lead back, in their order.
pub const LINK_PASSES: [Pass; 5] = [
    Pass::PatternFill,
    Pass::PatternStroke,
    Pass::ClipPath,
    Pass::Mask,
    Pass::Filter,
];
