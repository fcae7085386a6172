// Tests of reading lines: tables of lines with what each is read to.
#![tactic(auto)]

#[cfg(test)]
mod bytes;
#[cfg(test)]
mod forms;
#[cfg(test)]
mod offers;
#[cfg(test)]
mod read;
#[cfg(test)]
mod repeats;
#[cfg(test)]
mod values;
#[cfg(test)]
mod wording;
