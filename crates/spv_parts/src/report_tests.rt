// What no clause says of reports: what they hold, worked searches within limits, what tables have to meet, and that a proof that was found is accepted.

mod accepted;
mod limits;
mod reports;
mod tables;
