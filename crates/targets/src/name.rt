// The passes of the repairs: the attributes that they cut, and how these lead.
ghost use Rattle.std.specs.Prelude.{◌≡◌};
ghost use Rattle.model.specs.Repair.{cut_name};
ghost use Rattle.targets.specs.Targets.{pass_kind};
ghost use Rattle.targets.specs.Pass.{pass_number};

use names::aid;

// The passes, each with its number in the model. The first five look for links that lead back, the last cuts filters of images.
#[derive(Clone, Copy, PartialEq, Eq, Debug)]
pub enum Pass {
    PatternFill = 1,
    PatternStroke = 2,
    ClipPath = 3,
    Mask = 4,
    Filter = 5,
    FeImage = 6,
}

impl From<Pass> for u32 {
    ghost from_gives = { λ pass n. n ≡ pass_number pass };

    fn from(pass: Pass) -> u32 {
        pass as u32
    }
}

// The attribute that a pass cuts.
#[tactic(auto, unfolding(model::specs::Repair::cut_name))]
pub fn cut_name(pass: Pass) -> u32
    ensures { result ≡ cut_name (pass_number pass) }
{
    match pass {
        Pass::PatternFill => aid::FILL,
        Pass::PatternStroke => aid::STROKE,
        Pass::ClipPath => aid::CLIP_PATH,
        Pass::Mask => aid::MASK,
        Pass::Filter | Pass::FeImage => aid::FILTER,
    }
}

// The kind of reading by which the pass with that number leads: any number has one.
pub fn pass_kind(pass: u32) -> u8
    ensures { result ≡ pass_kind pass }
{
    let is_pattern = pass <= 2;
    if is_pattern { 3 } else { 2 }
}
