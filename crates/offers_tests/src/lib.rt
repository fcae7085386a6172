// Tests of the offers: which numbers make one, what each kind allows at which cost, the book, and days settled over it.
#![tactic(auto)]

#[cfg(test)]
mod books;
#[cfg(test)]
mod days;
#[cfg(test)]
mod kinds;
#[cfg(test)]
mod known_days;
#[cfg(test)]
mod numbers;
#[cfg(test)]
mod samples;
