//! Names of SVG and MathML with upper-case letters, which the tokenizer reads in lower case
//! (13.2.6.1, "adjust SVG attributes" and "adjust MathML attributes", and 13.2.6.5).

ghost use Rattle.std.specs.Prelude.{◌≡◌, map};
ghost use Rattle.std.specs.Str.{str_eq_ignore_ascii_case};
ghost use Rattle.page_trees.specs.Foreign.{adjusted, mathml_attr_name};
ghost use Rattle.standard_trees.specs.NameLists.{svg_attributes, svg_names};

const SVG_TAGS: [&str; 37] = [
    "altGlyph",
    "altGlyphDef",
    "altGlyphItem",
    "animateColor",
    "animateMotion",
    "animateTransform",
    "clipPath",
    "feBlend",
    "feColorMatrix",
    "feComponentTransfer",
    "feComposite",
    "feConvolveMatrix",
    "feDiffuseLighting",
    "feDisplacementMap",
    "feDistantLight",
    "feDropShadow",
    "feFlood",
    "feFuncA",
    "feFuncB",
    "feFuncG",
    "feFuncR",
    "feGaussianBlur",
    "feImage",
    "feMerge",
    "feMergeNode",
    "feMorphology",
    "feOffset",
    "fePointLight",
    "feSpecularLighting",
    "feSpotLight",
    "feTile",
    "feTurbulence",
    "foreignObject",
    "glyphRef",
    "linearGradient",
    "radialGradient",
    "textPath",
];

const SVG_ATTRS: [&str; 58] = [
    "attributeName",
    "attributeType",
    "baseFrequency",
    "baseProfile",
    "calcMode",
    "clipPathUnits",
    "diffuseConstant",
    "edgeMode",
    "filterUnits",
    "glyphRef",
    "gradientTransform",
    "gradientUnits",
    "kernelMatrix",
    "kernelUnitLength",
    "keyPoints",
    "keySplines",
    "keyTimes",
    "lengthAdjust",
    "limitingConeAngle",
    "markerHeight",
    "markerUnits",
    "markerWidth",
    "maskContentUnits",
    "maskUnits",
    "numOctaves",
    "pathLength",
    "patternContentUnits",
    "patternTransform",
    "patternUnits",
    "pointsAtX",
    "pointsAtY",
    "pointsAtZ",
    "preserveAlpha",
    "preserveAspectRatio",
    "primitiveUnits",
    "refX",
    "refY",
    "repeatCount",
    "repeatDur",
    "requiredExtensions",
    "requiredFeatures",
    "specularConstant",
    "specularExponent",
    "spreadMethod",
    "startOffset",
    "stdDeviation",
    "stitchTiles",
    "surfaceScale",
    "systemLanguage",
    "tableValues",
    "targetX",
    "targetY",
    "textLength",
    "viewBox",
    "viewTarget",
    "xChannelSelector",
    "yChannelSelector",
    "zoomAndPan",
];

/// Returns whether two texts are equal but for the case of ASCII letters.
pub fn is_same_folded(text: &str, other: &str) -> bool
    ensures { result ≡ str_eq_ignore_ascii_case text.now other.now }
{
    text.eq_ignore_ascii_case(other)
}

/// Returns the name in the list that equals this one in ASCII lower case, or the name itself.
fn adjusted<'a>(names: &[&'a str], name: &'a str) -> &'a str
    ensures { result.now ≡ adjusted (map (λ known. known.now) names.now) name.now }
{
    for known in names {
        if is_same_folded(known, name) {
            return known;
        }
    }
    name
}

/// Returns an SVG element's name in its proper case.
pub fn svg_tag(name: &str) -> &str
    ensures { result.now ≡ adjusted svg_names name.now }
{
    adjusted(&SVG_TAGS, name)
}

/// Returns an SVG attribute's name in its proper case.
pub fn svg_attr(name: &str) -> &str
    ensures { result.now ≡ adjusted svg_attributes name.now }
{
    adjusted(&SVG_ATTRS, name)
}

/// Returns a MathML attribute's name in its proper case.
pub fn mathml_attr(name: &str) -> &str
    ensures { result.now ≡ mathml_attr_name name.now }
{
    match name {
        "definitionurl" => "definitionURL",
        _ => name,
    }
}
