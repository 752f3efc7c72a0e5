// The codes of the elements that the code names: they count from 0 in the order of the Rust's `enum EId`.
pub const A: u32 = 0;

pub const CLIP_PATH: u32 = 2;

pub const FE_IMAGE: u32 = 20;

pub const FILTER: u32 = 30;

pub const G: u32 = 31;

pub const MASK: u32 = 36;

pub const PATTERN: u32 = 38;

pub const STYLE: u32 = 44;

pub const SVG: u32 = 45;

pub const TEXT: u32 = 48;

pub const TEXT_PATH: u32 = 49;

pub const TREF: u32 = 50;

pub const TSPAN: u32 = 51;

pub const USE: u32 = 52;
