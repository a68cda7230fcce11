#![tactic(auto)]

// Theory alone: runs of calls and cuts, the book that they are held against, and what is proved of every call.
