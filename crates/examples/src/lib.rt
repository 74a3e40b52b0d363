// Examples of lines of text, calls and answers, as tests. They stand apart, since a crate with tests is proved once more for them.
#![tactic(auto)]

#[cfg(test)]
mod answer_lines;
#[cfg(test)]
mod frame_lines;
#[cfg(test)]
mod sheet_runs;
#[cfg(test)]
mod whole_texts;
