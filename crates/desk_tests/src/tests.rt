//! Tests framing, calls, replies, connections and timeouts, over a keeper in lists.

mod callers;
mod conversation;
mod devices;
mod each;
mod failing;
mod frames;
mod halls;
mod heads;
mod longest;
mod order;
mod portal;
mod reopening;
mod requests;
mod second_sheets;
mod series;
mod streams;
mod times;
mod trials;
mod wire;
mod worked;
