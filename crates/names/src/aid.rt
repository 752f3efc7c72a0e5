// The codes of the attributes that the code names: they count from 0 in the order of the Rust's `enum AId`.
pub const ALIGNMENT_BASELINE: u32 = 0;

pub const BACKGROUND_COLOR: u32 = 3;

pub const BASELINE_SHIFT: u32 = 5;

pub const CLASS: u32 = 7;

pub const CLIP_PATH: u32 = 9;

pub const CLIP_RULE: u32 = 10;

pub const COLOR: u32 = 12;

pub const COLOR_INTERPOLATION: u32 = 13;

pub const COLOR_INTERPOLATION_FILTERS: u32 = 14;

pub const COLOR_RENDERING: u32 = 16;

pub const DIRECTION: u32 = 21;

pub const DISPLAY: u32 = 22;

pub const DOMINANT_BASELINE: u32 = 24;

pub const FILL: u32 = 31;

pub const FILL_OPACITY: u32 = 32;

pub const FILL_RULE: u32 = 33;

pub const FILTER: u32 = 34;

pub const FLOOD_COLOR: u32 = 36;

pub const FLOOD_OPACITY: u32 = 37;

pub const FONT: u32 = 38;

pub const FONT_FAMILY: u32 = 39;

pub const FONT_KERNING: u32 = 41;

pub const FONT_OPTICAL_SIZING: u32 = 42;

pub const FONT_SIZE: u32 = 43;

pub const FONT_SIZE_ADJUST: u32 = 44;

pub const FONT_STRETCH: u32 = 45;

pub const FONT_STYLE: u32 = 46;

pub const FONT_VARIANT: u32 = 48;

pub const FONT_VARIANT_CAPS: u32 = 49;

pub const FONT_VARIANT_EAST_ASIAN: u32 = 50;

pub const FONT_VARIANT_LIGATURES: u32 = 51;

pub const FONT_VARIANT_NUMERIC: u32 = 52;

pub const FONT_VARIANT_POSITION: u32 = 53;

pub const FONT_VARIATION_SETTINGS: u32 = 54;

pub const FONT_WEIGHT: u32 = 55;

pub const GLYPH_ORIENTATION_HORIZONTAL: u32 = 59;

pub const GLYPH_ORIENTATION_VERTICAL: u32 = 60;

pub const HREF: u32 = 64;

pub const ID: u32 = 65;

pub const IMAGE_RENDERING: u32 = 66;

pub const ISOLATION: u32 = 71;

pub const KERNING: u32 = 78;

pub const LETTER_SPACING: u32 = 80;

pub const LIGHTING_COLOR: u32 = 81;

pub const LINE_HEIGHT: u32 = 83;

pub const MARKER_END: u32 = 84;

pub const MARKER_MID: u32 = 85;

pub const MARKER_START: u32 = 86;

pub const MASK: u32 = 90;

pub const MASK_TYPE: u32 = 105;

pub const MIX_BLEND_MODE: u32 = 108;

pub const OPACITY: u32 = 112;

pub const OVERFLOW: u32 = 116;

pub const PAINT_ORDER: u32 = 117;

pub const SHAPE_RENDERING: u32 = 146;

pub const SPACE: u32 = 150;

pub const STOP_COLOR: u32 = 157;

pub const STOP_OPACITY: u32 = 158;

pub const STROKE: u32 = 159;

pub const STROKE_DASHARRAY: u32 = 160;

pub const STROKE_DASHOFFSET: u32 = 161;

pub const STROKE_LINECAP: u32 = 162;

pub const STROKE_LINEJOIN: u32 = 163;

pub const STROKE_MITERLIMIT: u32 = 164;

pub const STROKE_OPACITY: u32 = 165;

pub const STROKE_WIDTH: u32 = 166;

pub const STYLE: u32 = 167;

pub const TEXT_ANCHOR: u32 = 175;

pub const TEXT_DECORATION: u32 = 176;

pub const TEXT_OVERFLOW: u32 = 184;

pub const TEXT_RENDERING: u32 = 185;

pub const TRANSFORM: u32 = 188;

pub const TRANSFORM_ORIGIN: u32 = 190;

pub const UNICODE_BIDI: u32 = 192;

pub const VECTOR_EFFECT: u32 = 195;

pub const VISIBILITY: u32 = 197;

pub const WHITE_SPACE: u32 = 198;

pub const WORD_SPACING: u32 = 200;

pub const WRITING_MODE: u32 = 201;
