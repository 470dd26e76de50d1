//! Texts that programs print, each as `Display`: bytes (`hex`), the words of the node's answers (`words`), of a card (`card`) and of a
//! journal's entry (`entry`), and a numbered line of such words (`line`). Whole lines come also as texts put together without a writer
//! (`building`), which none can refuse: those of the node's answers (`answers`), of a card and of an entry (`card`, `entry`).
#![tactic(auto)]

pub mod answers;
pub mod building;
// Types that are made to be written at once: nothing compares them, so they derive no equality.
pub mod card;
pub mod entry;
pub mod hex;
pub mod line;
pub mod words;
