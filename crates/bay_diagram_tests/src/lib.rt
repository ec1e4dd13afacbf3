// Tests of hazards: states of a line bay and of a transformer bay, of examples/07_diagrams, and the
// operations that are hazards there. A program of its own in Python found the states and what is a
// hazard in them; none comes from bay_diagram.
#![tactic(auto)]

#[cfg(test)]
mod bays;
#[cfg(test)]
mod diagram_files;
#[cfg(test)]
mod diagrams;
#[cfg(test)]
mod judged;
#[cfg(test)]
mod states;
#[cfg(test)]
mod words;
