//! Requests, from their bytes to the answer, and connections, one after another.
mod bodies;
mod checks;
mod clients;
mod conditions;
mod connections;
mod heads;
mod reading;
mod responses;
mod results;
mod routes;
mod serving;
mod slow_peers;
mod tags;
mod texts;
