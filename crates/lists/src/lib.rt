// No code. specs/ has what the rules say of numbers and lists, and nothing of virtio: indices that wrap, little-endian
// fields, walks along links, and lists that name each of 0..n-1 once (document 01, "The record" and "Rules of the calls").
#![tactic(auto)]
