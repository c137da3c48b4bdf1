//! The encodings of Japanese pages, as the Encoding Standard decodes them: Shift_JIS, EUC-JP and
//! ISO-2022-JP.
#![tactic(auto)]

pub mod euc_jp;
pub mod iso_2022_jp;
mod katakana;
pub mod shift_jis;
mod table;
