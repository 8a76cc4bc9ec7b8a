// What the readers of statements answer and emit, and laws of passing over words. No code here.
#![tactic(auto)]
