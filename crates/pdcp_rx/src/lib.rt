//! The PDCP receiving entity of TS 38.323, 5.2.2, with t-Reordering infinite: it puts SDUs in order and hands each up once.
#![tactic(auto)]

mod entity;
mod ring;

pub use entity::{Put, Rx, RxParts};
