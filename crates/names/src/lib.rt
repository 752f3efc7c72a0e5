// Names: the classes of attribute names, the fixed values, and comparisons with the words that the tree knows.
// A code is a number and no enum, since a word of the tables may have any value, and every function answers for it.
#![tactic(auto)]

ghost use Rattle.std.specs.Prelude.{◌≡◌, ◌<◌, unwrap_or, IfSome};
ghost use Rattle.model.specs.Base.{same_bytes, among_words};
ghost use Rattle.model.specs.Names.{is_element, is_attribute, is_presentation, is_non_inheritable, is_inheritable, allows_inherit_value};
ghost use Rattle.model.specs.Names.{is_possible_none, is_declared_only, inherit_default, fixed_bytes, image_rendering_words};
ghost use Rattle.model.specs.Element.{inherit_word};
ghost use Rattle.model.specs.Text.{preserve_word};

pub mod aid;
pub mod eid;

// Is it the code of an element name?
#[tactic(auto, unfolding(model::specs::Names::is_element))]
pub fn is_element(code: u32) -> bool
    ensures { result ≡ is_element code }
{
    code <= 52
}

// Is it the code of an attribute name?
#[tactic(auto, unfolding(model::specs::Names::is_attribute))]
pub fn is_attribute(a: u32) -> bool
    ensures { result ≡ is_attribute a }
{
    a <= 210
}

// The names that a declaration may set. Of codes that follow one another, each second one stands in an arm of its own: in one `matches!`
// they would make seventeen ranges, and the proof does not close.
#[tactic(auto, unfolding(model::specs::Names::is_presentation, model::specs::Base::among))]
pub fn is_presentation(a: u32) -> bool
    ensures { result ≡ is_presentation a }
{
    match a {
        aid::ALIGNMENT_BASELINE
        | aid::BACKGROUND_COLOR
        | aid::BASELINE_SHIFT
        | aid::CLIP_PATH
        | aid::COLOR
        | aid::COLOR_INTERPOLATION_FILTERS
        | aid::COLOR_RENDERING
        | aid::DIRECTION
        | aid::DOMINANT_BASELINE
        | aid::FILL
        | aid::FILL_RULE
        | aid::FLOOD_COLOR
        | aid::FONT_FAMILY
        | aid::FONT_KERNING
        | aid::FONT_SIZE
        | aid::FONT_STRETCH
        | aid::FONT_VARIANT
        | aid::FONT_VARIATION_SETTINGS
        | aid::GLYPH_ORIENTATION_HORIZONTAL
        | aid::IMAGE_RENDERING
        | aid::ISOLATION
        | aid::LETTER_SPACING
        | aid::MARKER_END
        | aid::MARKER_START
        | aid::MASK
        | aid::MASK_TYPE
        | aid::MIX_BLEND_MODE
        | aid::OPACITY
        | aid::OVERFLOW
        | aid::SHAPE_RENDERING
        | aid::STOP_COLOR
        | aid::STROKE
        | aid::STROKE_DASHOFFSET
        | aid::STROKE_LINEJOIN
        | aid::STROKE_OPACITY
        | aid::TEXT_ANCHOR
        | aid::TEXT_OVERFLOW
        | aid::TRANSFORM
        | aid::TRANSFORM_ORIGIN
        | aid::UNICODE_BIDI
        | aid::VECTOR_EFFECT
        | aid::VISIBILITY
        | aid::WORD_SPACING => true,
        aid::CLIP_RULE
        | aid::COLOR_INTERPOLATION
        | aid::DISPLAY
        | aid::FILL_OPACITY
        | aid::FILTER
        | aid::FLOOD_OPACITY
        | aid::FONT_OPTICAL_SIZING
        | aid::FONT_SIZE_ADJUST
        | aid::FONT_STYLE
        | aid::FONT_WEIGHT
        | aid::GLYPH_ORIENTATION_VERTICAL
        | aid::LIGHTING_COLOR
        | aid::MARKER_MID
        | aid::PAINT_ORDER
        | aid::STOP_OPACITY
        | aid::STROKE_DASHARRAY
        | aid::STROKE_LINECAP
        | aid::STROKE_MITERLIMIT
        | aid::STROKE_WIDTH
        | aid::TEXT_DECORATION
        | aid::TEXT_RENDERING
        | aid::WHITE_SPACE
        | aid::WRITING_MODE => true,
        _ => false,
    }
}

// Presentation names that are taken from a direct parent only.
#[tactic(auto, unfolding(model::specs::Names::is_non_inheritable, model::specs::Base::among))]
pub fn is_non_inheritable(a: u32) -> bool
    ensures { result ≡ is_non_inheritable a }
{
    matches!(
        a,
        aid::ALIGNMENT_BASELINE
            | aid::BASELINE_SHIFT
            | aid::CLIP_PATH
            | aid::DISPLAY
            | aid::FILTER
            | aid::FLOOD_COLOR
            | aid::LIGHTING_COLOR
            | aid::MASK
            | aid::OPACITY
            | aid::OVERFLOW
            | aid::STOP_COLOR
            | aid::TEXT_DECORATION
            | aid::TRANSFORM
            | aid::TRANSFORM_ORIGIN
            | aid::FLOOD_OPACITY
            | aid::STOP_OPACITY
    )
}

// Presentation names that may come from any ancestor.
#[tactic(auto, unfolding(model::specs::Names::is_inheritable))]
pub fn is_inheritable(a: u32) -> bool
    ensures { result ≡ is_inheritable a }
{
    is_presentation(a) && !is_non_inheritable(a)
}

// The names whose value `inherit` is resolved.
#[tactic(auto, unfolding(model::specs::Names::allows_inherit_value, model::specs::Base::among))]
pub fn allows_inherit_value(a: u32) -> bool
    ensures { result ≡ allows_inherit_value a }
{
    matches!(
        a,
        aid::ALIGNMENT_BASELINE
            | aid::BASELINE_SHIFT
            | aid::CLIP_PATH
            | aid::COLOR
            | aid::COLOR_INTERPOLATION_FILTERS
            | aid::DIRECTION
            | aid::DOMINANT_BASELINE
            | aid::FILL
            | aid::FILL_RULE
            | aid::FLOOD_COLOR
            | aid::FONT_FAMILY
            | aid::FONT_KERNING
            | aid::FONT_SIZE
            | aid::FONT_STRETCH
            | aid::FONT_VARIANT
            | aid::FONT_WEIGHT
            | aid::IMAGE_RENDERING
            | aid::KERNING
            | aid::LETTER_SPACING
            | aid::MARKER_END
            | aid::MARKER_START
            | aid::MASK
            | aid::OPACITY
            | aid::OVERFLOW
            | aid::SHAPE_RENDERING
            | aid::STOP_COLOR
            | aid::STROKE
            | aid::STROKE_DASHOFFSET
            | aid::STROKE_LINEJOIN
            | aid::STROKE_OPACITY
            | aid::TEXT_ANCHOR
            | aid::TEXT_RENDERING
            | aid::VISIBILITY
            | aid::WORD_SPACING
            | aid::CLIP_RULE
            | aid::DISPLAY
            | aid::FILL_OPACITY
            | aid::FILTER
            | aid::FLOOD_OPACITY
            | aid::FONT_OPTICAL_SIZING
            | aid::FONT_STYLE
            | aid::MARKER_MID
            | aid::STOP_OPACITY
            | aid::STROKE_DASHARRAY
            | aid::STROKE_LINECAP
            | aid::STROKE_MITERLIMIT
            | aid::STROKE_WIDTH
            | aid::TEXT_DECORATION
            | aid::WRITING_MODE
    )
}

// The names whose value `none` counts as absent. It is no `matches!`: two of them stand on a line of their own for an edit that the check
// must refuse.
#[tactic(auto, unfolding(model::specs::Names::is_possible_none, model::specs::Base::among))]
pub fn is_possible_none(a: u32) -> bool
    ensures { result ≡ is_possible_none a }
{
    match a {
        aid::CLIP_PATH
        | aid::FILTER
        | aid::FONT_SIZE_ADJUST
        | aid::MARKER_END
        | aid::MARKER_START
        | aid::MASK
        | aid::STROKE
        | aid::TEXT_DECORATION => true,
        aid::MARKER_MID | aid::STROKE_DASHARRAY => true,
        _ => false,
    }
}

// Names that are dropped as attributes and taken as declarations.
#[tactic(auto, unfolding(model::specs::Names::is_declared_only, model::specs::Base::among))]
pub fn is_declared_only(a: u32) -> bool
    ensures { result ≡ is_declared_only a }
{
    matches!(a, aid::FONT_KERNING | aid::ISOLATION | aid::MIX_BLEND_MODE)
}

// `resolve_inherit`: the number of the fixed value for a name that no one above has; none where the attribute is dropped.
#[tactic(auto, unfolding(model::specs::Names::inherit_default, model::specs::Names::inherit_defaults, model::specs::Base::paired_with))]
pub fn inherit_default(a: u32) -> Option<u32>
    ensures number { unwrap_or result 0 ≡ inherit_default a }
    ensures nonzero { IfSome result (λ n. 0 < n) }
{
    let number = match a {
        aid::CLIP_PATH
        | aid::FILTER
        | aid::MARKER_END
        | aid::MARKER_START
        | aid::MASK
        | aid::STROKE
        | aid::TEXT_DECORATION
        | aid::MARKER_MID
        | aid::STROKE_DASHARRAY => 1,
        aid::IMAGE_RENDERING | aid::SHAPE_RENDERING | aid::TEXT_RENDERING => 2,
        aid::FONT_STRETCH
        | aid::FONT_VARIANT
        | aid::FONT_WEIGHT
        | aid::LETTER_SPACING
        | aid::WORD_SPACING
        | aid::FONT_STYLE => 3,
        aid::FILL | aid::FLOOD_COLOR | aid::STOP_COLOR => 4,
        aid::FILL_OPACITY
        | aid::FLOOD_OPACITY
        | aid::OPACITY
        | aid::STOP_OPACITY
        | aid::STROKE_OPACITY
        | aid::STROKE_WIDTH => 5,
        aid::CLIP_RULE | aid::FILL_RULE => 6,
        aid::BASELINE_SHIFT => 7,
        aid::COLOR_INTERPOLATION_FILTERS => 8,
        aid::DIRECTION => 9,
        aid::DISPLAY => 10,
        aid::FONT_SIZE => 11,
        aid::OVERFLOW | aid::VISIBILITY => 12,
        aid::STROKE_DASHOFFSET => 13,
        aid::STROKE_LINECAP => 14,
        aid::STROKE_LINEJOIN => 15,
        aid::STROKE_MITERLIMIT => 16,
        aid::TEXT_ANCHOR => 17,
        aid::WRITING_MODE => 18,
        _ => return None,
    };
    Some(number)
}

// Are two strings of bytes the same?
pub fn same(a: &[u8], b: &[u8]) -> bool
    ensures { result ≡ same_bytes a.now b.now }
{
    a == b
}

pub fn is_inherit(value: &[u8]) -> bool
    ensures { result ≡ same_bytes value.now inherit_word }
{
    same(value, b"inherit")
}

pub fn is_preserve(value: &[u8]) -> bool
    ensures { result ≡ same_bytes value.now preserve_word }
{
    same(value, b"preserve")
}

#[tactic(auto, unfolding(model::specs::Names::fixed_bytes, model::specs::Names::fixed_values))]
pub fn is_none(value: &[u8]) -> bool
    ensures { result ≡ same_bytes value.now (fixed_bytes 1) }
{
    same(value, b"none")
}

// The four words that image-rendering may not have as an attribute.
#[tactic(auto, unfolding(model::specs::Names::image_rendering_words, model::specs::Base::among_words))]
pub fn is_image_rendering_word(value: &[u8]) -> bool
    ensures { result ≡ among_words value.now image_rendering_words }
{
    same(value, b"smooth")
        || same(value, b"high-quality")
        || same(value, b"crisp-edges")
        || same(value, b"pixelated")
}

// Is the value that of the fixed value with number n? A number of no fixed value stands for no bytes.
#[tactic(auto, unfolding(model::specs::Names::fixed_bytes, model::specs::Names::fixed_values))]
pub fn is_fixed(n: u32, value: &[u8]) -> bool
    ensures { result ≡ same_bytes (fixed_bytes n) value.now }
{
    match n {
        1 => same(b"none", value),
        2 => same(b"auto", value),
        3 => same(b"normal", value),
        4 => same(b"black", value),
        5 => same(b"1", value),
        6 => same(b"nonzero", value),
        7 => same(b"baseline", value),
        8 => same(b"linearRGB", value),
        9 => same(b"ltr", value),
        10 => same(b"inline", value),
        11 => same(b"medium", value),
        12 => same(b"visible", value),
        13 => same(b"0", value),
        14 => same(b"butt", value),
        15 => same(b"miter", value),
        16 => same(b"4", value),
        17 => same(b"start", value),
        18 => same(b"lr-tb", value),
        _ => value.is_empty(),
    }
}
