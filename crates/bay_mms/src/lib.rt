// The Manufacturing Message Specification (ISO 9506-2) in the profile of IEC 61850-8-1: data and
// types of named variables, and their canonical texts in the Basic Encoding Rules.
//
// `request`: reads requests of clients. `data`: data and types as trees. `value`: writes the data
// and the type of a row of the tree. `client_view`: the rows of a tree as clients see them.
// `control`: reads the data of a control. `response`: writes responses, and `results` those to
// reads and writes. `report`: writes the reports of controls. `names`: the texts of a tree's names.
// `page`: writes pages of them. `fault`: why reading or writing failed. `laws`: laws about the
// texts and the grammar. Within the crate, `service`, `access` and `data_parser` read the parts of
// requests, `shape` those of controls, and `leaf` and `put` write parts of texts.
#![tactic(auto)]

mod access;
pub mod client_view;
pub mod control;
pub mod data;
mod data_parser;
pub mod fault;
pub mod laws;
mod leaf;
pub mod names;
pub mod page;
mod put;
pub mod report;
pub mod request;
pub mod response;
pub mod results;
mod service;
mod shape;
pub mod value;
