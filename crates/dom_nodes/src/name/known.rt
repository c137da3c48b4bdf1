//! The table of known names: those of the elements of HTML and of its common attributes. A name in
//! the table is stored as its index, a byte, and needs no memory. It is found by a perfect hash: a
//! name's length and three of its letters determine the one slot of the hash table in which it can
//! be.

ghost use Rattle.std.specs.Prelude.{◌≡◌, ◌<◌, ℕ, MatchOption};
ghost use Rattle.std.specs.Str.{bytes_eq};
ghost use Rattle.dom_nodes.specs.KnownNames.{known_name, slot, HasNumber, IsUnknown};

use crate::words::is_same_word;
use std::str::from_utf8_unchecked;

/// The index of the empty name.
pub(crate) const EMPTY: u8 = 0;

/// All known names one after another, ordered by length and within a length alphabetically.
#[rattlefmt::skip]
static LETTERS: [u8; 1377] = *b"\
abdipqsubrdddldtemh1h2h3h4h5h6hridliolrprttdthtrttulaltbdibdobigcoldeldfndirdivforimginskb\
dlowmapmaxminnavprerelrevsrcsubsupsvgvarwbrxmpabbrareabasebodycitecodecolsdatafillfontform\
headhrefhtmllanglinkloopmainmarkmenumetanamenobrrolerowsrubysampsizeslotspansteptimetypewr\
apalignallowasideasyncaudioblinkclassclearcolordeferembedframeinputismaplabelmediametermut\
ednonceparamscopeshapesizessmallstartstyletabletbodytfoottheadtitletrackvaluevideowidthxml\
nsacceptactionappletborderbuttoncanvascentercoordsdialogfigurefooterheaderheighthgrouphidd\
eniframeitemidkeygenlegendmethodobjectonloadoptionoutputposterscriptsearchselectsourcesrcd\
ocsrcsetstrikestrokestrongtargetusemapvalignacronymaddressarticlebgcolorbgsoundcaptionchar\
setcheckedcolspancontentdata-iddetailsenctypeheadersloadingmarqueenoembedonclickpatternpic\
turepreloadrowspansandboxsectionsummaryviewboxautoplaybasefontcolgroupcontrolsdata-srcdata\
listdatetimedecodingdisableddownloadfieldsetframesethreflangitempropitemtypemenuitemmultip\
lenoframesnoscriptoptgroupprogresspropertyreadonlyrequiredselectedtabindextemplatetextarea\
accesskeyautofocusdraggableintegrityitemscopemaxlengthplaintexttranslatearia-labelblockquo\
tefigcaptionhttp-equivnovalidatespellcheckaria-hiddencellpaddingcellspacingcrossoriginplac\
eholderaria-currentautocompletearia-controlsaria-expandedreferrerpolicyaria-labelledbycont\
enteditablearia-describedby";

/// The offset in `LETTERS` at which each name begins. The name ends where the next one begins.
#[rattlefmt::skip]
static STARTS: [u16; 248] = [
    0, 0, 1, 2, 3, 4, 5, 6, 7, 8, 10, 12, 14, 16, 18, 20, 22, 24, 26, 28, 30, 32, 34, 36, 38, 40,
    42, 44, 46, 48, 50, 52, 55, 58, 61, 64, 67, 70, 73, 76, 79, 82, 85, 88, 91, 94, 97, 100, 103,
    106, 109, 112, 115, 118, 121, 124, 127, 130, 133, 136, 140, 144, 148, 152, 156, 160, 164, 168,
    172, 176, 180, 184, 188, 192, 196, 200, 204, 208, 212, 216, 220, 224, 228, 232, 236, 240, 244,
    248, 252, 256, 260, 264, 268, 272, 277, 282, 287, 292, 297, 302, 307, 312, 317, 322, 327, 332,
    337, 342, 347, 352, 357, 362, 367, 372, 377, 382, 387, 392, 397, 402, 407, 412, 417, 422, 427,
    432, 437, 442, 447, 452, 458, 464, 470, 476, 482, 488, 494, 500, 506, 512, 518, 524, 530, 536,
    542, 548, 554, 560, 566, 572, 578, 584, 590, 596, 602, 608, 614, 620, 626, 632, 638, 644, 650,
    656, 662, 668, 674, 681, 688, 695, 702, 709, 716, 723, 730, 737, 744, 751, 758, 765, 772, 779,
    786, 793, 800, 807, 814, 821, 828, 835, 842, 849, 856, 864, 872, 880, 888, 896, 904, 912, 920,
    928, 936, 944, 952, 960, 968, 976, 984, 992, 1000, 1008, 1016, 1024, 1032, 1040, 1048, 1056,
    1064, 1072, 1080, 1089, 1098, 1107, 1116, 1125, 1134, 1143, 1152, 1162, 1172, 1182, 1192, 1202,
    1212, 1223, 1234, 1245, 1256, 1267, 1279, 1291, 1304, 1317, 1331, 1346, 1361, 1377,
];

/// The displacement of each of the 128 groups in the hash table, chosen so that no two names have
/// the same slot.
#[rattlefmt::skip]
static MOVES: [u8; 128] = [
    0, 0, 0, 0, 0, 0, 0, 2, 4, 2, 7, 3, 29, 20, 81, 82, 29, 16, 5, 1, 16, 17, 2, 13, 34, 28, 0, 53,
    84, 0, 25, 0, 54, 0, 1, 0, 0, 3, 25, 53, 8, 89, 111, 0, 71, 114, 0, 1, 0, 0, 0, 95, 88, 2, 7,
    23, 68, 26, 32, 166, 30, 173, 132, 134, 69, 100, 8, 118, 85, 82, 68, 57, 161, 115, 83, 60, 92,
    77, 0, 4, 0, 3, 0, 103, 101, 13, 2, 0, 1, 92, 130, 0, 0, 181, 165, 35, 0, 18, 0, 132, 0, 138, 0,
    0, 0, 0, 0, 0, 0, 0, 0, 0, 0, 0, 0, 0, 0, 0, 0, 0, 0, 0, 0, 0, 0, 0, 0, 0,
];

/// For each slot of the hash table, the index of the one name that can be there; 0 for an unused
/// slot.
#[rattlefmt::skip]
static PLACES: [u8; 512] = [
    234, 142, 28, 20, 41, 172, 167, 174, 136, 9, 187, 243, 159, 231, 53, 171, 194, 66, 123, 195, 29,
    175, 192, 135, 42, 12, 61, 55, 54, 228, 110, 40, 67, 82, 63, 223, 48, 220, 138, 198, 134, 78, 8,
    139, 109, 96, 170, 73, 118, 106, 90, 74, 242, 86, 35, 205, 68, 239, 178, 145, 169, 225, 185, 77,
    75, 183, 213, 24, 126, 79, 115, 184, 190, 210, 91, 6, 206, 105, 44, 112, 23, 69, 182, 191, 5,
    211, 153, 226, 7, 227, 164, 165, 58, 128, 0, 133, 0, 0, 0, 0, 0, 0, 0, 25, 0, 0, 0, 49, 0, 0, 0,
    224, 0, 0, 0, 0, 0, 189, 0, 0, 0, 0, 125, 0, 0, 0, 0, 0, 0, 0, 111, 0, 0, 0, 0, 83, 0, 0, 0, 0,
    0, 0, 0, 0, 0, 0, 0, 181, 0, 0, 0, 0, 0, 0, 0, 0, 0, 0, 0, 0, 0, 0, 0, 0, 212, 0, 0, 0, 0, 0, 0,
    0, 0, 0, 0, 0, 0, 0, 0, 0, 0, 0, 0, 0, 0, 0, 0, 0, 0, 0, 0, 0, 0, 0, 0, 0, 0, 0, 0, 0, 0, 0, 0,
    0, 0, 0, 0, 0, 0, 0, 0, 0, 0, 0, 0, 0, 0, 0, 0, 0, 0, 0, 0, 0, 0, 0, 0, 0, 0, 0, 0, 0, 0, 0, 0,
    0, 0, 0, 0, 0, 0, 0, 0, 0, 0, 0, 0, 0, 0, 0, 0, 0, 0, 0, 0, 0, 0, 0, 0, 0, 0, 0, 0, 0, 0, 0, 0,
    0, 0, 0, 0, 0, 0, 0, 0, 0, 0, 0, 0, 0, 0, 0, 0, 0, 0, 0, 0, 0, 0, 0, 0, 0, 0, 0, 0, 0, 0, 0, 0,
    0, 0, 0, 0, 0, 0, 0, 0, 0, 0, 0, 0, 0, 0, 0, 0, 0, 0, 0, 0, 0, 0, 0, 0, 0, 0, 0, 0, 0, 0, 0, 0,
    0, 0, 0, 0, 0, 0, 0, 0, 0, 0, 0, 0, 0, 0, 0, 0, 0, 0, 0, 0, 0, 0, 0, 0, 0, 0, 0, 0, 0, 0, 1,
    219, 0, 70, 104, 0, 0, 114, 0, 0, 0, 2, 43, 88, 116, 92, 176, 56, 0, 235, 173, 107, 117, 124, 0,
    119, 158, 26, 233, 59, 0, 177, 10, 244, 99, 32, 60, 71, 45, 103, 97, 33, 147, 3, 36, 200, 46,
    89, 122, 127, 108, 156, 21, 180, 37, 81, 246, 64, 129, 149, 57, 146, 143, 27, 199, 100, 140,
    215, 160, 163, 95, 168, 22, 34, 102, 4, 232, 62, 221, 93, 222, 14, 38, 154, 130, 151, 39, 209,
    193, 245, 15, 148, 141, 218, 98, 179, 137, 202, 208, 16, 47, 30, 204, 50, 11, 203, 207, 72, 17,
    31, 13, 85, 94, 51, 131, 144, 161, 18, 162, 113, 216, 101, 132, 150, 84, 201, 19, 166, 217, 240,
    80, 87, 196, 238, 230, 65, 214, 229, 237, 236, 157, 197, 52, 155, 121, 76, 241, 152, 186, 120,
    188,
];

/// Returns the index of a name in the table, or `None` when it isn't in the table.
#[inline(always)]
pub(crate) fn number_of(name: &str) -> Option<u8>
    ensures { MatchOption result (IsUnknown name.now) (HasNumber name.now) }
{
    let bytes = name.as_bytes();
    let length = bytes.len();
    if length == 0 {
        return Some(EMPTY);
    }
    let number = PLACES[slot_of(
        length % 128,
        bytes[0] as usize,
        bytes[length / 2] as usize,
        bytes[length - 1] as usize,
    )];
    if number < 247 && is_same_word(name_of(number).as_bytes(), bytes) {
        return Some(number);
    }
    None
}

/// Returns the hash slot of a name, from its length and its first, middle and last letter.
#[inline(always)]
fn slot_of(length: usize, first: usize, middle: usize, last: usize) -> usize
    requires length { length < 128 }
    requires first { first < 256 }
    requires middle { middle < 256 }
    requires last { last < 256 }
    ensures below { result < 512 }
    ensures is { result ≡ slot length first middle last }
{
    let group = (length + 4 * first) % 128;
    (8 * middle + last + MOVES[group] as usize) % 512
}

/// Returns the name at this index.
#[inline(always)]
pub(crate) fn name_of(number: u8) -> &'static str
    requires { number < 247 }
    ensures { result.now ≡ known_name number }
{
    let at = number as usize;
    let start = STARTS[at] as usize;
    let end = STARTS[at + 1] as usize;
    unsafe { from_utf8_unchecked(&LETTERS[start..end]) }
}

/// Returns whether the names at two indexes are equal. Each name is in the table once, so the
/// indexes are compared.
#[inline(always)]
pub(crate) fn is_same(number: u8, other: u8) -> bool
    requires number { number < 247 }
    requires other { other < 247 }
    ensures { result ≡ bytes_eq (known_name number) (known_name other) }
{
    number == other
}
