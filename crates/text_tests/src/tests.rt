mod certificates;
mod plans;
mod reports;
mod words;
