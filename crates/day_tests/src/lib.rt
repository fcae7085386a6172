// Tests of whole day files: every decline of a line with its place, lengths and counts at their limits, and days with all
// that they are answered.
#![tactic(auto)]

#[cfg(test)]
mod calls;
#[cfg(test)]
mod days;
#[cfg(test)]
mod files;
#[cfg(test)]
mod forms;
#[cfg(test)]
mod limits;
#[cfg(test)]
mod line_words;
#[cfg(test)]
mod offer_lines;
#[cfg(test)]
mod places;
